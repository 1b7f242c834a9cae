#![tactic(auto)]

// The three demands (README.md) as theorems, in specs/, over the definitions that the public contracts cite; and, in proofs/, that each
// contract allows one outcome only. There is no code here.
