// The theorems on walks and checks, each as the contract of a function.
ghost use Rattle.runs.specs.Theorems.{AListConvinces, DifferentShowsAShortestRun, EqualMeansSameRuns, FullMeansMorePairs, PassingShowsSameRuns, SameRunsAreFound, WrittenIsReadBack};

// A list of pairs that passes the check shows that two flows allow the same runs.
pub fn passing_shows_same_runs()
    ensures passing_shows_same_runs { PassingShowsSameRuns }
{}

// An equal answer means the same runs, and the pairs that were listed pass the check.
pub fn equal_means_same_runs()
    ensures equal_means_same_runs { EqualMeansSameRuns }
{}

// A different answer shows a shortest run that one flow allows and the other does not.
pub fn different_shows_a_shortest_run()
    ensures different_shows_a_shortest_run { DifferentShowsAShortestRun }
{}

// A full table means more meeting pairs than it has room for.
pub fn full_means_more_pairs()
    ensures full_means_more_pairs { FullMeansMorePairs }
{}

// With room for all meeting pairs, flows with the same runs are found equal.
pub fn same_runs_are_found()
    ensures same_runs_are_found { SameRunsAreFound }
{}

// With room for all meeting pairs, some list passes the check exactly when the flows allow the same runs.
pub fn a_list_convinces()
    ensures a_list_convinces { AListConvinces }
{}

// A run that is written down is read back.
pub fn written_is_read_back()
    ensures written_is_read_back { WrittenIsReadBack }
{}
