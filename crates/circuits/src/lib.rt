// Two entries make a third, document 02's request [9]: what holds between the entries that the lister writes (specs/), with
// the proofs. No code.
#![tactic(auto)]
