// The theorems on terms, their runs and their places, each as the contract of a function.
ghost use Rattle.kat.specs.Theorems.{PassesIsAllowed, PlacesAllowTheRuns};

// A term passes in a situation exactly when it allows the run of that situation alone.
pub fn passing_is_allowing_one_situation()
    ensures passes_is_allowed { PassesIsAllowed }
{}

// The flow of a term's places allows a run exactly when the term does.
pub fn places_allow_the_runs()
    ensures exactly_the_runs_of_the_term { PlacesAllowTheRuns }
{}
