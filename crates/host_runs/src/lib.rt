// Runs of the C functions on lent bytes are runs of the rules: any list of calls, whatever bytes and answers meet the contracts. No code.
#![tactic(auto)]
