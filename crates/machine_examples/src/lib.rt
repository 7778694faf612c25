// Computed examples of the register banks and of runs of commands, in specs/, beside the marked ones; it has no code.
#![tactic(auto)]
