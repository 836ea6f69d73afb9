// The bound at the moments of a run: it never falls faster than the ledger rises. The promise stands in specs/, the theorems in proofs/Theorems.antt. No code.
#![tactic(auto)]
