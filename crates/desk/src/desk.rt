// How far a script has come.
use book::Book;
use sheet::Sheet;

// What lies on the desk.
#[derive(Drop)]
pub enum Desk {
    // Nothing: a vocabulary is wanted first.
    Empty,
    // A sheet that is being laid out.
    Laid(Sheet),
    // An opened book.
    Opened(Book),
}
