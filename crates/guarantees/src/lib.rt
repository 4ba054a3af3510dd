// Laws alone: what a customer of the six services can cite of them, a file for each service. There is no code here.
#![tactic(auto)]
