#![tactic(auto)]

// The scope's examples of edge cases, (a) to (l), as one list under one statement. There is no code here. specs/ has the list, a row for each request
// with its answer, and the claim that it makes about the definitions that the public calls' contracts cite. proofs/ has the statement. The program
// `ask` is run on the same requests (oracle/edges.py).
