// A card from three numbers, document 02's request [7]: the Stepped Combination code of d, m and k, and what the call answers
// (specs/), with the theorems about them. No code.
#![tactic(auto)]
