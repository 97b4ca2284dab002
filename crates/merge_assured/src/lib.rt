// What the verdict on two event lists assures. Theorems. Read specs/, Assured first.
#![tactic(auto)]
