// What an output does, told from the history of calls and answers alone. No code.
#![tactic(auto)]
