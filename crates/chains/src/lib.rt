// Laws alone: certificates composed in a chain, whichever two are composed first. There is no code here.
#![tactic(auto)]
