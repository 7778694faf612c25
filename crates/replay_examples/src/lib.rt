// Computed examples of what the replays share, in specs/; it has no code, and no counterpart in the Rust.
#![tactic(auto)]
