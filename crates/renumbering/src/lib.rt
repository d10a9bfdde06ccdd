// Alike, but not the same spares, document 02's request [8]: what it is to renumber the parity disks (specs/), that two cards
// are alike exactly where that carries the one to the other, and that their lists then match, with the proofs. No code.
#![tactic(auto)]
