// What holds of every device and every step, and the starred examples of 01: definitions (specs/) and theorems (proofs/) alone, no code.
#![tactic(auto)]
