// What an auditor asks: two event lists that differ by exchanges of independent neighbours give the same run. Read specs/, SameRun first.
#![tactic(auto)]
