// Document 01 as definitions. No code: what a reader has to believe is in specs/, the runs and the laws that pin it in proofs/.
#![tactic(auto)]
