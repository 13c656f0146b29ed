// Searches along rows, as code makes them and as the rules say them: the place, whether there is any, the first. No code.
#![tactic(auto)]
