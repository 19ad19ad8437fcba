// What holds of converted class sheets: this crate has no code, only specs/ and proofs/.

#![tactic(auto)]
