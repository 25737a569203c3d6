// Demand 3: no code, only laws. What is promised of streams stands in specs/, that it holds in proofs/.
#![tactic(auto)]
