// Definitions and laws alone: specs/ says how the lent slices are read as a memory, and what storing a word does to it.

#![tactic(auto)]

pub fn nothing() {}
