// A report as one number, for a caller in C (specs/Coded.antt), and what such a caller may rely on
// (specs/Theorems.antt): the number tells the report's number and its value, for every report of every
// call. No code: the exported calls go by it.
#![tactic(auto)]
