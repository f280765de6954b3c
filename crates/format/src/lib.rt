// The book's format: definitions and theorems alone, no code.
#![tactic(auto)]
