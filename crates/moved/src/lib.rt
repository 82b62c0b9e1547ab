// The bits that a write moved (request Q-8), of every device and every step: definitions (specs/) and theorems (proofs/) alone, no code.
#![tactic(auto)]
