// A live run over any letters, as definitions in specs/ and theorems in proofs/. No code.
#![tactic(auto)]
