// The records of a pair table as text.
ghost use Rattle.std.specs.Prelude.{OnOk};
ghost use Rattle.texts.specs.Adds.{Adds};
ghost use Rattle.showing.specs.Pairs.{pair_line, pair_lines};

use std::alloc::AllocError;
use texts::put_shown;
use walk::{CodePair, PairRecord};

// The line of one entry.
fn put_pair(out: &mut Vec<u8>, number: usize, entry: &PairRecord) -> Result<(), AllocError>
    ensures { OnOk result (Adds (pair_line number entry.now) out.old.items out.new.items) }
{
    let CodePair { left, right } = entry.pair;
    let (from, situation, action) = (entry.from, entry.situation, entry.action);
    put_shown(
        out,
        format_args!("  pair {number}: {left} {right} from {from} by {situation} {action}\n"),
    )
}

// A line for each entry.
pub fn put_pairs(out: &mut Vec<u8>, records: &[PairRecord]) -> Result<(), AllocError>
    ensures a_line_for_each { OnOk result (Adds (pair_lines 0 records.now) out.old.items out.new.items) }
{
    for (number, entry) in records.iter().enumerate() {
        put_pair(out, number, entry)?;
    }
    Ok(())
}
