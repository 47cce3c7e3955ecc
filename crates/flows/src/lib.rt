// Flows: what the walk goes over, whatever it is made of.

#![tactic(auto)]

ghost use Rattle.std.specs.Prelude.{◌≡◌};
ghost use Rattle.runs.specs.Flows.{FlowMeaning, Lawful};

mod allowing;
mod counts;

pub use allowing::allows;
pub use counts::Counts;

// Codes, with the situations accepted at each and the code that each action leads to in each situation. Situation and action come
// as two numbers, as the bytes of a run have them.
pub trait Flow {
    // What the flow means.
    ghost meaning: { Self → FlowMeaning };

    // There are 1 to 64 situations and at most 16 actions, a code accepts situations alone, and an index out of range
    // gives the code back.
    ghost lawful: { (x : Self) → Lawful (meaning x) };

    // How many situations there are.
    fn situations(&self) -> u8
        ensures as_meant { result ≡ (meaning self.now).situations };

    // How many actions there are.
    fn actions(&self) -> u8
        ensures as_meant { result ≡ (meaning self.now).actions };

    // The code that every run begins at.
    fn start(&self) -> u64
        ensures as_meant { result ≡ (meaning self.now).start };

    // The situations that are accepted at a code, a bit for each.
    fn accept(&self, code: u64) -> u64
        ensures as_meant { result ≡ (meaning self.now).accept code };

    // The code that an action leads to from a code in a situation.
    fn next(&self, code: u64, situation: u8, action: u8) -> u64
        ensures as_meant { result ≡ (meaning self.now).next code situation action };
}
