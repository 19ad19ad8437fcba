// What a class file yields is its own: this crate has no code, only specs/ and proofs/.

#![tactic(auto)]
