// What holds of static words: this crate has no code, only specs/ and proofs/.

#![tactic(auto)]
