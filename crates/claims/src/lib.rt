// The three demands of document 01, as definitions in specs/ and theorems in proofs/, over the contracts of the six public calls. No code.
#![tactic(auto)]
