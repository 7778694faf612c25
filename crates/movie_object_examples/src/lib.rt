// Computed examples of MovieObject.bdmv read, listed and written, in specs/; it has no code, and no counterpart in the Rust.
#![tactic(auto)]
