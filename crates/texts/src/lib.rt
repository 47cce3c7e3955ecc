// Texts, put behind what a buffer holds. Without memory for all of a text, what was put there of it is worth nothing. A name
// or a sign that was given is bytes of any kind, which no `Display` can write, so there is a call for bytes too.

#![tactic(auto)]

ghost use Rattle.std.specs.Prelude.{decimal, IfSome, OnOk};
ghost use Rattle.texts.specs.Adds.{Adds};

mod writer;

use crate::writer::Writer;
use std::alloc::AllocError;
use std::fmt::{Display, Write};
use std::mem::replace;
use words::push_decimal;

// Bytes as they are.
pub fn put(out: &mut Vec<u8>, bytes: &[u8]) -> Result<(), AllocError>
    ensures { OnOk result (Adds bytes.now out.old.items out.new.items) }
{
    out.extend_from_slice(bytes)
}

// What a value shows.
pub fn put_shown<D: Display + Drop>(out: &mut Vec<u8>, value: D) -> Result<(), AllocError>
    ensures what_it_shows { OnOk result (IfSome (D.output value) (λ text. Adds text out.old.items out.new.items)) }
{
    // The bytes are taken out while they are written to, so that no text is made first.
    let none = Vec::new(*out.allocator());
    let mut writer = Writer {
        bytes: replace(out, none),
    };
    let written = writer.write(value);
    *out = writer.bytes;
    written.map_err(|_| AllocError)
}

// A number in digits, without its text being made first.
pub fn put_number(out: &mut Vec<u8>, n: u64) -> Result<(), AllocError>
    ensures { OnOk result (Adds (decimal n) out.old.items out.new.items) }
{
    push_decimal(out, n)
}

#[cfg(test)]
mod tests {
    use super::{put, put_number, put_shown};
    use std::test::Fail;

    #[test]
    fn pieces_stand_one_behind_the_other(rt: HostRuntime) -> Result<(), Fail> {
        let mut out = Vec::new(rt.alloc());
        put(&mut out, b"\xffa")?;
        put_number(&mut out, 12)?;
        let pairs = 7u8;
        put_shown(&mut out, format_args!(" of {pairs};"))?;
        assert_eq!(rt; out.as_slice(), b"\xffa12 of 7;".as_slice());
        Ok(())
    }
}
