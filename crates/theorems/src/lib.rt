// No code: `proofs` has the theorems about texts, operations and marked cases that no function's
// proof cites, `specs` the definitions that only they need.
#![tactic(auto)]
