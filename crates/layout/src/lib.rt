// The bytes that are a table are the writings of the tables in range, each of one only: the theorems, in proofs/. No code.
#![tactic(auto)]
