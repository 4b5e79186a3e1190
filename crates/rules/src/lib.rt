// Document 01 as definitions: they stand in specs/, and small projects as theorems about them in proofs/. This crate has no code.

#![tactic(auto)]
