// Laws of the answers that a C host gets; no code.
#![tactic(auto)]
