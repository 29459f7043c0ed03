#![tactic(auto)]

// The worked examples stand in specs/ as one table, with one theorem over it in proofs/; there is no code here.
