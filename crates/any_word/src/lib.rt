// Laws of the word of the open streams: see specs/.
#![tactic(auto)]
