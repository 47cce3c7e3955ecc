// Worked cases, from the texts of rules and the lines of a chart to the answers of judge and check. Theory alone.

#![tactic(auto)]

ghost use Rattle.worked.specs.Worked.{Worked};

// The worked cases come out as they were worked by hand.
pub fn worked_cases_come_out_so()
    ensures as_worked_by_hand { Worked }
{}
