// A step on the structs is the step of the rules: for each class, what the code reads is what the rule reads, and what it
// stores is what the rule writes. Theorems: read specs/.
#![tactic(auto)]
