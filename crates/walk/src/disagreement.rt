// When the accept masks of two flows disagree: said here, and nowhere else.
ghost use Rattle.std.specs.Prelude.{◌≡◌};
ghost use Rattle.runs.specs.Pairs.{disagree};

// Two accept masks disagree where they are not the same.
pub fn disagree(a: u64, b: u64) -> bool
    ensures masks_differ { result ≡ disagree a b }
{
    a != b
}
