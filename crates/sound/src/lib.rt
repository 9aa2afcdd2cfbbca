// Definitions and laws alone: specs/ says how a memory stands for a heap of the definition.

#![tactic(auto)]

pub fn nothing() {}
