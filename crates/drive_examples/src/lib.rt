// Computed examples of drives of titles and of the disc check, in specs/; it has no code, and no counterpart in the Rust.
#![tactic(auto)]
