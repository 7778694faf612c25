// Computed examples of how the words of a command line are read, in specs/; it has no code.
#![tactic(auto)]
