// The live state's 128 bytes, as definitions in specs/ and theorems in proofs/. No code.
#![tactic(auto)]
