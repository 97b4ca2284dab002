// Would another merge of the logs have accepted the same writes? Theorems. Read specs/: Verdict, Pairs, Clocks and Own first.
#![tactic(auto)]
