// The definitions of a flat XOR code (specs/) and the theorems about them (proofs/), and the name of a
// card's edition, which definitions and calls share. No code: the crates above compute what is defined here.
#![tactic(auto)]

// The edition of a card, as the caller names it. The second has a wear for each disk.
#[derive(Clone, Copy)]
pub enum Edition {
    First,
    Second,
}
