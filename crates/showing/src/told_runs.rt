// A run as text. It is put piece by piece, since the names in it are bytes.
ghost use Rattle.std.specs.Prelude.{true, OnOk};
ghost use Rattle.sheet.specs.Laid.{sheet_of};
ghost use Rattle.texts.specs.Adds.{Adds};
ghost use Rattle.showing.specs.Told.{in_words, run_line, situation_text, test_text, turns};

use sheet::Sheet;
use std::alloc::AllocError;
use texts::{put, put_number};
use vocabulary::Vocabulary;

// The name of a test that holds, the first of them or one more.
fn put_test(out: &mut Vec<u8>, first: bool, name: &[u8]) -> Result<(), AllocError>
    ensures { OnOk result (Adds (test_text first name.now) out.old.items out.new.items) }
{
    if first {
        return put(out, name);
    }
    put(out, b"&")?;
    put(out, name)
}

// How a run is told: actions by their names on a sheet, and situations in words or else by number.
#[derive(Clone, Copy)]
struct Telling<'a> {
    sheet: &'a Sheet,
    // Whether situations are told in words; else they are told by number.
    words: bool,
}

impl Telling<'_> {
    // A situation by the named tests that hold there.
    fn put_in_words(&self, out: &mut Vec<u8>, s: u8) -> Result<(), AllocError>
        ensures { OnOk result (Adds (in_words (sheet_of self.now.sheet.now) s) out.old.items out.new.items) }
    {
        let names = self.sheet.names();
        let vocabulary = self.sheet.vocabulary();
        let mut first = true;
        for t in 0..names.tests() {
            if vocabulary.holds(t, s) {
                put_test(out, first, names.test_name(t))?;
                first = false;
            }
        }
        if first {
            put(out, b"none")?;
        }
        Ok(())
    }

    // A situation, in words or by its number.
    fn put_situation(&self, out: &mut Vec<u8>, s: u8) -> Result<(), AllocError>
        ensures { OnOk result (Adds (situation_text (sheet_of self.now.sheet.now) self.now.words s) out.old.items out.new.items) }
    {
        if self.words {
            self.put_in_words(out, s)
        } else {
            put_number(out, u64::from(s))
        }
    }

    // The situations and actions of a run in turn.
    fn put_turns(&self, out: &mut Vec<u8>, run: &[u8]) -> Result<(), AllocError>
        ensures { OnOk result (Adds (turns (sheet_of self.now.sheet.now) self.now.words true run.now) out.old.items out.new.items) }
    {
        let mut situation = true;
        for b in run {
            put(out, b" ")?;
            if situation {
                self.put_situation(out, *b)?;
            } else {
                put(out, self.sheet.names().action_name(*b))?;
            }
            situation = !situation;
        }
        Ok(())
    }
}

// The line of a run that bytes write down: its actions by name, its situations by number or in words.
pub fn put_run(out: &mut Vec<u8>, sheet: &Sheet, words: bool, run: &[u8]) -> Result<(), AllocError>
    ensures the_run_as_a_line { OnOk result (Adds (run_line (sheet_of sheet.now) words run.now) out.old.items out.new.items) }
{
    put(out, if words { b"  in words" } else { b"  run" })?;
    Telling { sheet, words }.put_turns(out, run)?;
    put(out, b"\n")
}
