// Lists of calls that show demand 3 at work, no function: the lists are in specs/, what they show is proved in proofs/.
#![tactic(auto)]
