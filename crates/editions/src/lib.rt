// The two editions of the card, document 02's request [10]: the converter between them, and what holds of cards of either
// edition (specs/), with the proofs. No code. The card itself is defined in flat/specs/Cards.antt.
#![tactic(auto)]
