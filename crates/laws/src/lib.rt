// What the definitions of `rules` guarantee, as theorems: they stand in specs/ and proofs/. This crate has no code.

#![tactic(auto)]
