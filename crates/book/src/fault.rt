// Why two texts are not compared.
ghost use Rattle.std.specs.Prelude.{◌≡◌};
ghost use Rattle.book.specs.declared.fault.TextFault.TheVariants.{Walk};

use grammar::RuleFault;
use walk::WalkFault;

// A refusal of the calls that compare two texts.
#[derive(Clone, Copy, PartialEq, Eq, Debug)]
pub enum TextFault {
    // The text on the left is refused.
    Left(RuleFault),
    // The text on the right is refused, and the one on the left is not.
    Right(RuleFault),
    // Both texts are granted, and the walk over their flows or the check of the list is refused.
    Walk(WalkFault),
}

// A fault of the walk is passed on as it is.
impl From<WalkFault> for TextFault {
    ghost from_gives = { λ fault r. r ≡ Walk fault };

    fn from(fault: WalkFault) -> TextFault {
        TextFault::Walk(fault)
    }
}
