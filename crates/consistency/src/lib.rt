// Arc consistency: definitions and theorems alone, no code.
#![tactic(auto)]
