// Request 114 of document 02, sharing the server bill, in the model: the definitions and the statement are in specs/, the proof in
// proofs/. No functions: those stand in the crate `bill_wards`.
#![tactic(auto)]
