#![tactic(auto)]

// Theorems about the three calls on a record; no code.
