// Theorems about the contracts themselves: no second answer meets one, and what the wrong programs of the scope would have to say.
#![tactic(auto)]
