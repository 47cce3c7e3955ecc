// The book that a sheet becomes when it is opened. So far it is empty: it reads rules, tells which runs they allow, and
// compares them.

#![tactic(auto)]

ghost use Rattle.std.specs.Prelude.{◌≡◌, length, IfOk};
ghost use Rattle.book.specs.Allowing.{AllowedExactly, allows_in};
ghost use Rattle.book.specs.Books.{book_of, means_in, opened, read_in};
ghost use Rattle.rules.specs.Granted.{GrantedExactlyForRules};
ghost use Rattle.sheet.specs.Held.{names_of};
ghost use Rattle.sheet.specs.Laid.{sheet_of};

use flows::Flow;
use grammar::RuleFault;
use rules::{Node, Rule, read_rule};
use sheet::{Names, Sheet};
use vocabulary::Vocabulary;

mod checking;
mod compared;
mod comparing;
mod fault;
mod judging;

pub use fault::TextFault;

// The most nodes that a rule has.
const MOST_NODES: usize = 255;

// An opened book. Its vocabulary and names are those of the sheet, and stay.
#[derive(Drop)]
pub struct Book {
    sheet: Sheet,
}

impl Book {
    // Turns a sheet into an empty book; the sheet is no more. Wants no memory and is never refused.
    pub fn open(sheet: Sheet) -> Book
        ensures { book_of result ≡ opened (sheet_of sheet) }
    {
        Book { sheet }
    }

    // How many tests are named.
    pub fn tests_named(&self) -> u8
        ensures { result ≡ length (book_of self.now).sheet.names.tests }
    {
        self.sheet.names().tests()
    }

    // How many actions are named.
    pub fn actions_named(&self) -> u8
        ensures { result ≡ length (book_of self.now).sheet.names.actions }
    {
        self.sheet.names().actions()
    }

    // How many situations there are.
    pub fn situations(&self) -> u8
        ensures { result ≡ (book_of self.now).sheet.meaning.situations }
    {
        self.sheet.vocabulary().situations()
    }

    // The names of the sheet.
    pub fn names(&self) -> &Names
        ensures { names_of result.now ≡ (book_of self.now).sheet.names }
    {
        self.sheet.names()
    }

    // Reads a rule's text by the names of the book. Nothing is filed.
    pub fn read(&self, text: &[u8]) -> Result<Rule, RuleFault>
        ensures answer { result ≡ read_in (book_of self.now) text.now }
        ensures granted_exactly_for_rules { GrantedExactlyForRules (means_in (book_of self.now)) text.now }
    {
        let mut nodes = [Node::Empty; MOST_NODES];
        read_rule(text, self.sheet.names(), &mut nodes)
    }

    // Whether the rule of a text allows the run that the bytes s0 a1 s1 .. an sn write down. Nothing is filed.
    pub fn allows(&self, text: &[u8], run: &[u8]) -> Result<bool, RuleFault>
        ensures answer { result ≡ allows_in (book_of self.now) text.now run.now }
        ensures allows_exactly_the_runs_of_the_rule { IfOk result (λ yes. AllowedExactly (book_of self.now) text.now run.now yes) }
    {
        let flow = self.flow_of(text)?;
        Ok(flows::allows(&flow, run))
    }
}
