// The calls on a sheet and conditions 1 to 3: definitions and theorems alone, no code.
#![tactic(auto)]
