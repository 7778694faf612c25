// What the calls for C of the runner, the driver and the disc check promise, and examples of it, in specs/; there is no code here.
#![tactic(auto)]
