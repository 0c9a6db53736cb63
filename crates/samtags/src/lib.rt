#![tactic(auto)]

// The meaning of a base-modification tag: the definitions that every contract about tags cites, and the promises over them. No code.
//
// specs/ holds the definitions that must be believed; docs/PROVED.md says in what order to read them. proofs/ holds the theorems.
