// What the calls for C of an index.bdmv promise, and examples of it, in specs/; there is no code here.
#![tactic(auto)]
