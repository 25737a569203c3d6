// No code: what the other crates' definitions and proofs share is in specs/ and proofs/.
#![tactic(auto)]
