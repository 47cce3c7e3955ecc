// Tables that are filled from the first entry on.
ghost use Rattle.std.specs.Prelude.{ℕ, ◌<◌, ◌≤◌, slice_index_or};

// A table with so many entries, and blanks behind them.
pub(crate) fn table_of<T: Copy, const N: usize, F: Fn(u8) -> T>(
    count: u8,
    blank: T,
    entry: F,
) -> [T; N]
    requires room { count ≤ N }
    requires callable { (k : ℕ) → k < count → F.pre entry k }
    ensures filled { (k : ℕ) → k < count → F.post entry k (slice_index_or result k blank) }
{
    let mut table = [blank; N];
    for k in 0..count {
        table[usize::from(k)] = entry(k);
    }
    table
}
