// The flows of two texts that are compared.
use places::RuleFlow;

// The flow of the text on each side.
#[derive(Drop)]
pub(crate) struct Compared {
    pub(crate) left: RuleFlow,
    pub(crate) right: RuleFlow,
}
