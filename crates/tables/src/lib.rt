// The masks that tell a term's places: what each node of a rule adds to those of its parts, and the flow that is told by them.
// Definitions, and lemmas on them.

#![tactic(auto)]
