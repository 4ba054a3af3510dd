// Laws alone: power series over a ring, and polynomials as series that end. There is no code here.
#![tactic(auto)]
