// What holds after every list of links and interface asks: this crate has no code, only specs/ and proofs/.

#![tactic(auto)]
