// One strip rewritten, document 02's request [4]: the strips that change and how, and what the call answers (specs/), with the theorems
// about them. In the field's words, an update of one data disk. No code.
#![tactic(auto)]
