// Computed examples of names and of lines, in specs/; there is no code here.
#![tactic(auto)]
