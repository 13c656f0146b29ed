// Laws of the definition: what follows from it for any state. Theorems over runs of calls stand above. There is no code.
#![tactic(auto)]
