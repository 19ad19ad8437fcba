// What holds of the form of a class file: this crate has no code, only specs/ and proofs/.

#![tactic(auto)]
