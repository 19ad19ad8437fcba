// What holds of refused calls: this crate has no code, only specs/ and proofs/.

#![tactic(auto)]
