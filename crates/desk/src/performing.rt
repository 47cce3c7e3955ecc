// The calls of a script. A call that comes at the wrong time has no reply, and changes nothing.
ghost use Rattle.std.specs.Prelude.{◌≡◌, Err};
ghost use Rattle.std.specs.Option.{option_map};
ghost use Rattle.desk.specs.Replies.{said_by};
ghost use Rattle.desk.specs.Performing.{Done, desk_of, numbered, performed, read_said};
ghost use Rattle.script.specs.Asked.{action, call_of, opening, reading, test, vocabulary};

use crate::desk::Desk;
use crate::joining::vocabulary_of;
use crate::reply::{Refused, Reply};
use book::Book;
use grammar::RuleFault;
use refusals::Refusal;
use rules::{Rule, faulty_sign};
use script::{Command, Part};
use sheet::{NameFault, Sheet};
use signs::SignFault;
use std::alloc::{AllocError, Global};
use vocabulary::Vocabulary;

// The answer to naming.
fn naming_reply<'a>(named: Result<u8, NameFault>) -> Result<Reply, Refused<'a>>
    ensures { said_by result ≡ numbered named }
{
    Ok(Reply::Number(named?))
}

// Why a rule's text is refused. All refusals are for a sign but two: that of a text too long and that of too few nodes.
fn reading_refused<'a>(text: &'a [u8], fault: RuleFault) -> Refused<'a>
    ensures { said_by (Err result) ≡ read_said text.now (Err fault) }
{
    let sign = match fault {
        RuleFault::Sign(SignFault::TextTooLong) | RuleFault::NoRoom => None,
        _ => Some(faulty_sign(text, fault)),
    };
    Refused {
        refusal: Refusal::from(fault),
        sign,
    }
}

// The answer to reading a rule's text.
fn reading_reply<'a>(text: &'a [u8], read: Result<Rule, RuleFault>) -> Result<Reply, Refused<'a>>
    ensures { said_by result ≡ read_said text.now read }
{
    let rule = read.map_err(|fault| reading_refused(text, fault))?;
    Ok(Reply::Read {
        nodes: rule.nodes,
        actions: rule.actions,
    })
}

impl Desk {
    // Reads a rule's text by the names of the book.
    fn read<'a>(&self, text: &'a [u8]) -> Option<Result<Reply, Refused<'a>>>
        ensures { option_map said_by result ≡ (performed (desk_of self.now) (reading text.now)).reply }
    {
        match self {
            Desk::Opened(book) => Some(reading_reply(text, book.read(text))),
            _ => None,
        }
    }

    // Names the next test of the sheet. It and `name_action` call what they are named for, and a call passed on as a closure
    // would need a contract longer than either.
    fn name_test<'a>(&mut self, name: &[u8]) -> Option<Result<Reply, Refused<'a>>>
        ensures answer { option_map said_by result ≡ (performed (desk_of self.old) (test name.now)).reply }
        ensures after { desk_of self.new ≡ (performed (desk_of self.old) (test name.now)).after }
    {
        match self {
            Desk::Laid(sheet) => Some(naming_reply(sheet.name_test(name))),
            _ => None,
        }
    }

    // Names the next action of the sheet.
    fn name_action<'a>(&mut self, name: &[u8]) -> Option<Result<Reply, Refused<'a>>>
        ensures answer { option_map said_by result ≡ (performed (desk_of self.old) (action name.now)).reply }
        ensures after { desk_of self.new ≡ (performed (desk_of self.old) (action name.now)).after }
    {
        match self {
            Desk::Laid(sheet) => Some(naming_reply(sheet.name_action(name))),
            _ => None,
        }
    }

    // Turns the sheet into a book.
    fn open<'a>(&mut self) -> Option<Result<Reply, Refused<'a>>>
        ensures answer { option_map said_by result ≡ (performed (desk_of self.old) opening).reply }
        ensures after { desk_of self.new ≡ (performed (desk_of self.old) opening).after }
    {
        match std::mem::replace(self, Desk::Empty) {
            Desk::Laid(sheet) => {
                let book = Book::open(sheet);
                let reply = Reply::Opened {
                    tests: book.tests_named(),
                    actions: book.actions_named(),
                };
                *self = Desk::Opened(book);
                Some(Ok(reply))
            }
            other => {
                *self = other;
                None
            }
        }
    }

    // Begins a sheet from the parts of a vocabulary.
    fn begin<'a>(
        &mut self,
        heap: Global,
        parts: &[Part],
    ) -> Result<Option<Result<Reply, Refused<'a>>>, AllocError>
        ensures { Done (desk_of self.old) (vocabulary parts.now) result (desk_of self.new) }
    {
        if let Desk::Empty = self {
            // A refusal is answered here and not passed on, since what `?` passes on is want of memory.
            let made = match vocabulary_of(parts) {
                Ok(made) => made,
                Err(fault) => return Ok(Some(Err(Refused::from(fault)))),
            };
            let sheet = Sheet::begin(heap, &made)?;
            *self = Desk::Laid(sheet);
            Ok(Some(Ok(Reply::Vocabulary {
                situations: made.situations(),
                tests: made.tests(),
            })))
        } else {
            Ok(None)
        }
    }

    // Carries a call out.
    pub fn perform<'a>(
        &mut self,
        heap: Global,
        command: &Command<'a>,
    ) -> Result<Option<Result<Reply, Refused<'a>>>, AllocError>
        ensures { Done (desk_of self.old) (call_of command.now) result (desk_of self.new) }
    {
        match command {
            Command::Vocabulary(parts) => self.begin(heap, parts),
            Command::Test(name) => Ok(self.name_test(name)),
            Command::Action(name) => Ok(self.name_action(name)),
            Command::Open => Ok(self.open()),
            Command::Read(text) => Ok(self.read(text)),
        }
    }
}
