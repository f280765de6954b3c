// What the lines of a tree book mean: definitions and theorems alone, no code.
#![tactic(auto)]
