// Computed examples of the register operations on words, in specs/; it has no code.
#![tactic(auto)]
