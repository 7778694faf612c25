// Laws on lists that the other crates share, in specs/; it has no code, and no counterpart in the Rust.
#![tactic(auto)]
