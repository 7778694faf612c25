// Examples of decoding, encoding and numbering a command, in specs/; it has no code, and no counterpart in the Rust.
#![tactic(auto)]
