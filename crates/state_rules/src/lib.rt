// What the lent bytes say: every place, width and size of the state by name, its rows, bits and assemblies, and the whole as the rules' state with
// its test (docs/RULES.md, chapter 16; docs/STATE.md). This crate has definitions and laws about them, no code.
#![tactic(auto)]
