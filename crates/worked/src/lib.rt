// The worked codes of document 01, for the definitions of crate flat: one table (specs/Table.antt), one
// proposition over it (specs/Worked.antt), and wrong definitions that it rules out (specs/Impostors.antt).
// No code.
#![tactic(auto)]
