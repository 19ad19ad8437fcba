// What holds of the slots of tables that the linker made: this crate has no code, only specs/ and proofs/.

#![tactic(auto)]
