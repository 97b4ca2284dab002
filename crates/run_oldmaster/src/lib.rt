// The histories that users hold: no old master's write is among them. Read specs/, Held first.
#![tactic(auto)]
