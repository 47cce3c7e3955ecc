// A buffer that text is written to, behind what it holds.
ghost use Rattle.std.specs.Prelude.{◌≡◌, ◌++◌};

use std::fmt::{Error, Result, Write};

// The bytes of a buffer.
#[derive(Drop)]
pub(crate) struct Writer {
    pub(crate) bytes: Vec<u8>,
}

impl Write for Writer {
    ghost write_str_gives = { λ before text after. after.bytes.items ≡ before.bytes.items ++ text };

    fn write_str(&mut self, text: &str) -> Result {
        self.bytes
            .extend_from_slice(text.as_bytes())
            .map_err(|_| Error)
    }
}
