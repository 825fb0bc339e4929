// The longer theorems about the definitions of `paper`, in proofs/. No code.
#![tactic(auto)]
