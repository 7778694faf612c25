// Computed examples of index.bdmv read and written, in specs/; it has no code, and no counterpart in the Rust.
#![tactic(auto)]
