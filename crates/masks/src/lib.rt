// Masks: numbers of 64 bits read as sets of situations or of places.

#![tactic(auto)]

ghost use Rattle.std.specs.Prelude.{◌≡◌};
ghost use Rattle.masks.specs.Bits.{bit};

mod making;

pub use making::mask_where;

#[cfg(test)]
mod tests;

// Whether a mask has the bit; a mask has none from 64 on.
pub fn has(mask: u64, place: u8) -> bool
    ensures bit { result ≡ bit place mask }
{
    place < 64 && (mask >> place) % 2 == 1
}
