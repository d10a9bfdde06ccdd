// One repair step, by which a lost strip becomes the XOR of other strips, and what a repair is (specs/), with the theorems about
// them. No code.
#![tactic(auto)]
