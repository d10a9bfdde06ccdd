// The least-wear call, document 02's request [10]: what it answers for a code and the wears of its disks (specs/), with the
// theorems about it. No code.
#![tactic(auto)]
