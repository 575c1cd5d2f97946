#![tactic(auto)]

// The rules alone: definitions in specs/, theorems in proofs/. No code.
