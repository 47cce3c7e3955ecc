// Answering a line of a script.
ghost use Rattle.std.specs.Prelude.{◌≡◌, IfOk, OnOk};
ghost use Rattle.script.specs.Asked.{asked};
ghost use Rattle.desk.specs.Answering.{answered};
ghost use Rattle.desk.specs.Performing.{desk_of};
ghost use Rattle.texts.specs.Adds.{Adds};

use crate::desk::Desk;
use crate::text::{put_answer, put_not_understood};
use script::{Line, read_line};
use std::alloc::{AllocError, Global};

impl Desk {
    // Does what the line asks for and puts the answer's text behind what `out` holds. Answers whether the line, the
    // `number`th of its script, was understood.
    pub fn answer(
        &mut self,
        heap: Global,
        number: u64,
        line: &[u8],
        out: &mut Vec<u8>,
    ) -> Result<bool, AllocError>
        ensures understood { IfOk result (λ b. b ≡ (answered (desk_of self.old) number (asked line.now)).understood) }
        ensures text { OnOk result (Adds (answered (desk_of self.old) number (asked line.now)).text out.old.items out.new.items) }
        ensures after { OnOk result (desk_of self.new ≡ (answered (desk_of self.old) number (asked line.now)).after) }
    {
        match read_line(heap, line)? {
            Line::PassedOver => Ok(true),
            Line::NotUnderstood => {
                put_not_understood(out, number)?;
                Ok(false)
            }
            Line::Call(command) => {
                let reply = self.perform(heap, &command)?;
                put_answer(out, number, &command, reply)?;
                Ok(reply.is_some())
            }
        }
    }
}
