// Laws alone: the integers modulo p, primes, and what a slice of residues stands for. There is no code here.
#![tactic(auto)]
