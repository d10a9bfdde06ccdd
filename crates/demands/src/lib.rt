// The three demands that stand over every call, each as one statement (specs/), and their proofs. No code.
#![tactic(auto)]
