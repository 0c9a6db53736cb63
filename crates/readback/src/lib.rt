#![tactic(auto)]

// What is built is what is read: theorems about the code of `building`, `duplex` and `reading` together, from their contracts alone. There is no code
// here. proofs/ has a file for one strand, one for two strands, one for the longest tag, and one of worked calls that meet all that the theorems assume.
