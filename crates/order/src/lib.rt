// What holds of a renumbering of classes: this crate has no code, only specs/ and proofs/.

#![tactic(auto)]
