// Partial rebuild, document 02's request [5]: what the second rebuild call answers and leaves in the stripe (specs/), with the theorems
// about it. No code.
#![tactic(auto)]
