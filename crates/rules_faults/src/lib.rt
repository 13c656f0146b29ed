// The faults of the versions before, shut out by theorems about the rules, for every sequence of calls from a fresh setup. No code.
#![tactic(auto)]
