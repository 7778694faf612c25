// Computed examples of the numbers of answers and of sessions, in specs/; it has no code.
#![tactic(auto)]
