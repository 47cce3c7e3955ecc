// The number that a word writes.
ghost use Rattle.std.specs.Prelude.{◌≡◌};
ghost use Rattle.words.specs.Number.{number_of};

// The value of a word of one or more digits, where it fits 64 bits; leading zeros are fine.
pub fn number(word: &[u8]) -> Option<u64>
    ensures { result ≡ number_of word.now }
{
    if word.is_empty() {
        return None;
    }
    let mut value: u64 = 0;
    for b in word {
        if !b.is_ascii_digit() {
            return None;
        }
        let digit = u64::from(*b - b'0');
        value = value.checked_mul(10)?.checked_add(digit)?;
    }
    Some(value)
}
