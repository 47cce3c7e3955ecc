// The signs that the text of a rule is written with.
ghost use Rattle.std.specs.Prelude.{◌≡◌};
ghost use Rattle.signs.specs.Reader.{mark_of};
ghost use Rattle.signs.specs.Signs.{stands_at};

// A sign, with the place of its first byte in the text.
#[derive(Clone, Copy)]
pub enum Sign<'a> {
    // A name, as long as can be: the part of the text that it was read from, and its place.
    Name(&'a [u8], usize),
    // The word `skip`.
    Skip(usize),
    // The word `stop`.
    Stop(usize),
    // `(`
    Open(usize),
    // `)`
    Close(usize),
    // `!`
    Not(usize),
    // `*`
    Star(usize),
    // `;`
    Then(usize),
    // `|`
    Or(usize),
}

impl Sign<'_> {
    // The place of its first byte in the text.
    pub fn place(self) -> usize
        ensures { result ≡ stands_at (mark_of self.entry) }
    {
        match self {
            Sign::Name(_, place)
            | Sign::Skip(place)
            | Sign::Stop(place)
            | Sign::Open(place)
            | Sign::Close(place)
            | Sign::Not(place)
            | Sign::Star(place)
            | Sign::Then(place)
            | Sign::Or(place) => place,
        }
    }
}
