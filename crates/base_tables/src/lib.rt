// Laws of tables in bytes: rows of records set, pushed and dropped in order, a ring, slots and regions of one buffer. No code.
#![tactic(auto)]
