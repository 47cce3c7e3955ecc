// A name, kept in a small value of its own.
ghost use Rattle.std.specs.Prelude.{◌≡◌, ◌≤◌, true, take};
ghost use Rattle.signs.specs.Names.{is_name};

// A name of at most 12 bytes, as it was written. The bytes behind its length say nothing. They are kept in place, since a
// name is copied by value and takes no memory of its own.
#[derive(Clone, Copy)]
pub struct Name {
    pub(crate) bytes: [u8; 12],
    pub(crate) len: u8,
    ghost within: { len ≤ 12 },
    ghost spelled: { is_name (take len bytes) ≡ true },
}
