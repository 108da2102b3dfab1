// Demand 3 over every list of calls: what is promised is in specs/, the theorem in proofs/. There is no code here.
#![tactic(auto)]
