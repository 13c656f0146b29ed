// What runs of the C functions promise a host, said of the lent bytes: the last word, the run bit, streams, sizes, refusals, demand 3, uploads. No code.
#![tactic(auto)]
