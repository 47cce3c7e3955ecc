// Making a name of bytes, reading it back, and its sameness.
ghost use Rattle.std.specs.Prelude.{◌≡◌};
ghost use Rattle.std.specs.Cmp.{partial_equiv_from_equiv};
ghost use Rattle.sheet.specs.Spelling.{bytes_of, name_from, name_laws, same_name, spelling};

use crate::fault::NameFault;
use crate::name::Name;
use keys::Keyed;
use signs::is_name;

impl Name {
    // The bytes as a name; refused where they are none.
    pub fn new(bytes: &[u8]) -> Result<Name, NameFault>
        ensures { spelling result ≡ name_from bytes.now }
    {
        if !is_name(bytes) {
            return Err(NameFault::NotAName);
        }
        let len = bytes.len();
        let mut kept = [0u8; 12];
        (&mut kept[0..len]).copy_from_slice(bytes);
        Ok(Name {
            bytes: kept,
            // Nothing is lost, as a name has at most 12 bytes; a `try_from` would need an answer where it has more.
            len: len as u8,
        })
    }

    // The bytes of the name, as they were written.
    pub fn as_bytes(&self) -> &[u8]
        ensures { result.now ≡ bytes_of self.now }
    {
        &self.bytes[0..usize::from(self.len)]
    }
}

// Two names are the same where their bytes are. Written by hand, since a derive would also compare what stands behind them.
impl PartialEq for Name {
    ghost eq = { same_name };

    ghost laws = { partial_equiv_from_equiv name_laws };

    fn eq(&self, other: &Name) -> bool {
        self.as_bytes() == other.as_bytes()
    }
}

impl Eq for Name {
    ghost laws = { name_laws };
}

// In a list of names each is its own key.
impl Keyed for Name {
    type By = Name;

    ghost bears = { λ name. name };

    fn key(&self) -> &Name {
        self
    }
}
