// Laws alone: curves, the rules for kernel polynomials, and the theorems about them. There is no code here.
#![tactic(auto)]
