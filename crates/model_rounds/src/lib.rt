// Request 111 of document 02, rounds with so many workers, in the model: the definitions and the statement are in specs/, the
// proof in proofs/. No functions: those stand in the crate `run_rounds`.
#![tactic(auto)]
