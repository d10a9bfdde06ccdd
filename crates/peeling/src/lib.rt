// Quick repair of a tray of stripes, document 02, request [1]: the step rule, one stripe, a tray, and what the call answers (specs/), with
// the theorems about them. In the field's words, peeling. No code.
#![tactic(auto)]
