// What holds of the numbers by which signatures are matched: this crate has no code, only specs/ and proofs/.

#![tactic(auto)]
