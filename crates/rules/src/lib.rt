// The rules of mastership arbitration. They are definitions alone: read specs/, from Limits to Step.
#![tactic(auto)]
