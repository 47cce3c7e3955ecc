// The laws of Kleene algebra with tests, each group as the contract of a function.
ghost use Rattle.kat.specs.Laws.{ChainLaws, ChainSplits, ChoiceLaws, Holds, StarLaws, TestLaws};

// Choice is a union: associative, commutative, idempotent, with `stop` as its unit.
pub fn choice_laws_hold()
    ensures choice_is_a_union { (holds : Holds) → ChoiceLaws holds }
{}

// Chain is associative, `skip` changes nothing and `stop` stops on either side, and it distributes over choice.
pub fn chain_laws_hold()
    ensures chain_distributes_over_choice { (holds : Holds) → ChainLaws holds }
{}

// A repetition unfolds on both sides, and is the least that does.
pub fn star_laws_hold()
    ensures star_is_the_least_that_unfolds { (holds : Holds) → StarLaws holds }
{}

// Tests are a Boolean algebra under choice, chain and negation.
pub fn test_laws_hold()
    ensures tests_are_a_boolean_algebra { (holds : Holds) → TestLaws holds }
{}

// A run of a chain splits at one situation, which is the last of a run of its first part and the first of one of its second.
pub fn a_chain_splits()
    ensures parts_share_one_situation { (holds : Holds) → ChainSplits holds }
{}
