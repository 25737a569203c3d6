// Sound for ever: no code, only laws. What is kept stands in specs/Kept.antt, and that every call keeps it in proofs/.
#![tactic(auto)]
