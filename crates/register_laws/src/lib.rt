// Laws of lists of calls and register accesses. No code: the definitions are in specs/, the laws in proofs/.
#![tactic(auto)]
