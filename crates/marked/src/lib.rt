// The marked sheets of document 01 and what the services answer to them: laws only, in specs/.
#![tactic(auto)]
