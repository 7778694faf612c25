// Examples of reading, of text and of lent arrays, in specs/; it has no code, and no counterpart in the Rust.
#![tactic(auto)]
