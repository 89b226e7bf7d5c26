// The ground floor: what every other crate's statements and proofs are made of.
//
// No code stands here. specs/ has the definitions (walks over the indices below a number, parts of lists and writes into them, tests over
// a table), proofs/ the laws about them, each stated once. It answers no sentence of 01 by itself.

#![tactic(auto)]
