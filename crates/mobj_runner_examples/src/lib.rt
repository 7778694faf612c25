// Computed examples of runs of objects, in specs/; it has no code, and no counterpart in the Rust.
#![tactic(auto)]
