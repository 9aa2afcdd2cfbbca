// Definitions and laws alone: specs/ says what a two-level segregated fit heap is.

#![tactic(auto)]

pub fn nothing() {}
