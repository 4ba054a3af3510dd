// Laws alone: commutative rings, identities decided by computing, derivations. There is no code here.
#![tactic(auto)]
