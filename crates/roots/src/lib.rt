// Laws alone: how many roots a polynomial over ℤ/p has in ℤ/p, by a greatest common divisor. There is no code here.
#![tactic(auto)]
