#![tactic(auto)]

// What the contract of a public call is made of stands in specs/; there is no code here.
