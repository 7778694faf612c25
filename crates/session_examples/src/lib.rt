// Computed examples of sessions, budgets and frames, in specs/; it has no code, and no counterpart in the Rust.
#![tactic(auto)]
