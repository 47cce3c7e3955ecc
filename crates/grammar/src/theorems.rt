// The theorems on the grammar and its reader, each as the contract of a function.
ghost use Rattle.grammar.specs.Theorems.{BuiltIsDerived, FaultNeverGranted, FuelIsEnough, GrantedIsARule, OneTerm, RuleIsGranted, RuleIsNumbered};
ghost use Rattle.grammar.specs.Theorems.{SizeCountsSigns, TestsAreTold};
ghost use Rattle.grammar.specs.Worked.{Worked};

// What the builders build is derived from the signs that they read.
pub fn what_is_built_is_derived()
    ensures built_is_derived { BuiltIsDerived }
{}

// What is granted is a rule.
pub fn what_is_granted_is_a_rule()
    ensures granted_is_a_rule { GrantedIsARule }
{}

// A text with a fault of the sign reader is never granted.
pub fn a_fault_is_never_granted()
    ensures fault_never_granted { FaultNeverGranted }
{}

// Every rule is granted.
pub fn a_rule_is_granted()
    ensures rule_is_granted { RuleIsGranted }
{}

// Signs derive one term at most.
pub fn signs_derive_one_term()
    ensures one_term { OneTerm }
{}

// The reader's fuel is enough.
pub fn the_fuel_is_enough()
    ensures fuel_is_enough { FuelIsEnough }
{}

// The places of a rule are numbered 1, 2, .. in the order of its text, and there are at most 63.
pub fn a_rules_places_are_in_text_order()
    ensures places_are_numbered { RuleIsNumbered }
{}

// Every sign of a rule other than a bracket makes one part of its term.
pub fn a_rules_size_counts_its_signs()
    ensures one_part_for_each_sign { SizeCountsSigns }
{}

// What the reader asks of a term behind `!` tells exactly the tests.
pub fn the_tests_are_told()
    ensures exactly_the_tests { TestsAreTold }
{}

// The worked texts read as they should.
pub fn worked_texts_read_so()
    ensures worked { Worked }
{}
