// Demand 3: how far a leg's position drifts, and while it does not matter: specs/ and proofs/. There is no code here.
#![tactic(auto)]
