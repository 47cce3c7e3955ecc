// A number as it is printed.
ghost use Rattle.std.specs.Prelude.{◌≡◌, ℕ, List, ◌++◌, is_ok, if◌then◌else◌, decimal};
ghost use Rattle.words.specs.Decimal.{DigitsOf};

use itoa::Buffer;
use std::alloc::AllocError;

// Writes the number's decimal digits behind what `out` holds; without memory for them, `out` stays as it was.
pub fn push_decimal(out: &mut Vec<u8>, n: u64) -> Result<(), AllocError>
    ensures the_digits_stand_behind { out.new.items ≡ (if is_ok result then out.old.items ++ decimal n else out.old.items) }
    ensures the_digits_are_read_back { DigitsOf n (decimal n) }
    ensures no_other_digits_are { (bs : List ℕ) → DigitsOf n bs → bs ≡ decimal n }
{
    out.extend_from_slice(Buffer::new().format(n).as_bytes())
}
