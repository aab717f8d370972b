// Demand 3 over the accumulator's calls, and what every call keeps of lent memory: definitions and proofs alone.
#![tactic(auto)]
