// What the calls for C of banks, sessions, budgets and the command machine promise, and examples of it, in specs/; there is no code here.
#![tactic(auto)]
