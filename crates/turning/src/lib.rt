// Turn the disks, document 02's request [11]: in which slot a stripe stores a disk's strip, what it is to turn a stripe and to
// turn it back, what the three calls answer and leave (specs/), and what holds of them, with the proofs. No code.
#![tactic(auto)]
