// The cases from the bench, as one table of definitions with a single proof by computation. No code.
#![tactic(auto)]
