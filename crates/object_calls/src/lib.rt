// What the calls for C of a MovieObject.bdmv promise, and examples of it, in specs/; there is no code here.
#![tactic(auto)]
