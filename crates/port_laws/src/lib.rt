// Laws of the port's calls, no function: document 01's cases, a fit record stays fit, and on it a quick call equals the call; a Frame is the call that
// it becomes, and the lookup finds the stream that is bound.
#![tactic(auto)]
