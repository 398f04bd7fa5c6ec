// Document 01, "Frames to check", computed from the definitions: proofs/. There is no code here.
#![tactic(auto)]
