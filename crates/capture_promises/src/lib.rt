// What holds of every replay, and small captures with their dumps: definitions (specs/) and theorems (proofs/) alone, no code.
#![tactic(auto)]
