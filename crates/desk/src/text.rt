// Answers as text, put behind what a buffer holds. Without memory for all of it, what was put there so far is worth nothing.
ghost use Rattle.std.specs.Prelude.{OnOk};
ghost use Rattle.std.specs.Option.{option_map};
ghost use Rattle.script.specs.Asked.{call_of};
ghost use Rattle.texts.specs.Adds.{Adds};
ghost use Rattle.desk.specs.Replies.{said_by};
ghost use Rattle.desk.specs.Texts.{answer_text, heading, not_understood, reply_text};

use crate::reply::{Refused, Reply};
use script::Command;
use std::alloc::AllocError;
use texts::{put, put_shown};

// What stands behind the call in an answer.
fn put_reply(out: &mut Vec<u8>, reply: Result<Reply, Refused<'_>>) -> Result<(), AllocError>
    ensures { OnOk result (Adds (reply_text (said_by reply.entry)) out.old.items out.new.items) }
{
    match reply {
        Ok(Reply::Vocabulary { situations, tests }) => {
            put_shown(out, format_args!("{situations} situations, {tests} tests"))
        }
        Ok(Reply::Number(number)) => put_shown(out, format_args!("number {number}")),
        Ok(Reply::Opened { tests, actions }) => {
            put_shown(
                out,
                format_args!("{tests} tests and {actions} actions named"),
            )
        }
        Ok(Reply::Read { nodes, actions }) => {
            put_shown(out, format_args!("{nodes} nodes, {actions} actions"))
        }
        Err(Refused { refusal, sign }) => match sign {
            None => put_shown(out, refusal),
            Some(faulty) => {
                put_shown(out, format_args!("{refusal} on \""))?;
                put(out, faulty)?;
                put(out, b"\"")
            }
        },
    }
}

// The call as an answer begins with it.
fn put_heading(out: &mut Vec<u8>, command: &Command<'_>) -> Result<(), AllocError>
    ensures { OnOk result (Adds (heading (call_of command.now)) out.old.items out.new.items) }
{
    match command {
        Command::Vocabulary(_) => put(out, b"vocabulary"),
        Command::Test(name) => {
            put(out, b"test ")?;
            put(out, name)
        }
        Command::Action(name) => {
            put(out, b"action ")?;
            put(out, name)
        }
        Command::Open => put(out, b"open"),
        Command::Read(_) => put(out, b"read"),
    }
}

// What is said of a line that is not understood.
pub fn put_not_understood(out: &mut Vec<u8>, line: u64) -> Result<(), AllocError>
    ensures { OnOk result (Adds (not_understood line) out.old.items out.new.items) }
{
    put_shown(out, format_args!("line {line}: not understood\n"))
}

// The answer to the call of a line.
pub fn put_answer(
    out: &mut Vec<u8>,
    line: u64,
    command: &Command<'_>,
    reply: Option<Result<Reply, Refused<'_>>>,
) -> Result<(), AllocError>
    ensures { OnOk result (Adds (answer_text line (call_of command.now) (option_map said_by reply.entry)) out.old.items out.new.items) }
{
    let Some(reply) = reply else {
        return put_not_understood(out, line);
    };
    put_heading(out, command)?;
    put(out, b": ")?;
    put_reply(out, reply)?;
    put(out, b"\n")
}
