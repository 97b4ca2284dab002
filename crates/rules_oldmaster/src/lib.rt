// Why an old master can't get in. Read specs/, KeptOut first.
#![tactic(auto)]
