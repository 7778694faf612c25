// What the calls for C of one command promise, and examples of it, in specs/; there is no code here.
#![tactic(auto)]
