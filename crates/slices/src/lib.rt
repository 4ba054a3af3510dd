// Laws alone: what a loop that fills a slice from the front leaves in it. There is no code here.
#![tactic(auto)]
