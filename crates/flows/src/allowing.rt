// Asking a flow whether it allows a run.
ghost use Rattle.std.specs.Prelude.{◌≡◌};
ghost use Rattle.flows.specs.Written.{allows_written};

use crate::Flow;

// Whether a flow allows the run s0 a1 s1 .. an sn that the bytes are in this order; bytes of an even count are no run,
// and are not allowed.
pub fn allows<F: Flow>(flow: &F, run: &[u8]) -> bool
    ensures as_written { result ≡ allows_written (F.Flow.meaning flow.now) run.now }
{
    let mut code = flow.start();
    let mut rest = run;
    while let [situation, action, later @ ..] = rest {
        code = flow.next(code, *situation, *action);
        rest = later;
    }
    match rest {
        [last] => masks::has(flow.accept(code), *last),
        _ => false,
    }
}
