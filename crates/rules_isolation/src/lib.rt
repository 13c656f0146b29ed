// Demand 3 as a theorem about the rules: what I/O frames from one address can change, and what they cannot. No code.
#![tactic(auto)]
