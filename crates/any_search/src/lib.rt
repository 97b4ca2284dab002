// Places one after another, and a search over them: see specs/.
#![tactic(auto)]
