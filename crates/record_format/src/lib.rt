// The record file: its definitions (specs/) and the theorems about them (proofs/). No code: the record
// crates above compute what is defined here.
#![tactic(auto)]
