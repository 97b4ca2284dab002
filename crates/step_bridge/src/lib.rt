// A state in structs and the state that it holds: read specs/.
#![tactic(auto)]
