// Computed examples of the listing of a file, in specs/; there is no code here.
#![tactic(auto)]
