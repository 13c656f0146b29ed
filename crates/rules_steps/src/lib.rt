// One induction over a run of calls, for every theorem about runs; what a run tells; and the events that a call tells. No code.
#![tactic(auto)]
