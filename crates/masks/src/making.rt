// Masks made of answers.
ghost use Rattle.std.specs.Prelude.{◌≡◌, ℕ, ◌<◌, ◌≤◌, Bool};
ghost use Rattle.masks.specs.Bits.{bits_below};

// The numbers below a count at which the answer is yes, a bit for each.
#[inline]
pub fn mask_where<F: Fn(u8) -> bool>(count: u8, yes: F) -> u64
    requires room { count ≤ 64 }
    requires callable { (s : ℕ) → s < count → F.pre yes s }
    ensures bits_are_the_answers { (f : ℕ → Bool) → ((s : ℕ) → s < count → (b : Bool) → F.post yes s b → b ≡ f s) → result ≡ bits_below f count }
{
    let mut mask = 0;
    for s in 0..count {
        if yes(s) {
            mask += 1 << s;
        }
    }
    mask
}
