// Independent steps may change places: read specs/, Independent and Claim first.
#![tactic(auto)]
