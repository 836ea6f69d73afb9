// Goal distances on any finite graph: definitions in specs/, theorems in proofs/Theorems.antt. No code.
#![tactic(auto)]
