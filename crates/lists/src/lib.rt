// Laws of lists alone: the definitions are in specs/, their laws in proofs/, and no function is here.
#![tactic(auto)]
