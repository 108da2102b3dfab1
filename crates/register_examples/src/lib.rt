// What demand 3 says of a list whose ticks and transmits are control writes. No code: the list is in specs/, what follows in proofs/.
#![tactic(auto)]
