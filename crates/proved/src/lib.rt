// 01's proved examples: one list (specs/Examples.antt), proved as one statement (proofs/Examples.antt). There is no code here; the program
// `examples` runs them.
#![tactic(auto)]
