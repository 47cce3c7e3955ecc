// The theorems on books, each as the contract of a function.
ghost use Rattle.ledger.specs.Theorems.{FilingKeepsGroups, GroupsMeanRunsAlways};

// After any list of calls, group answers for exactly the flows that are in the book, and two of them have equal group
// numbers exactly when they allow the same runs.
pub fn groups_mean_same_runs()
    ensures groups_mean_same_runs { GroupsMeanRunsAlways }
{}

// A granted file or chart changes no other flow's group.
pub fn filing_keeps_groups()
    ensures filing_keeps_groups { FilingKeepsGroups }
{}
