// Definitions and laws alone: specs/ says what the heap's calls are as callers make them, in bytes and on lent slices, and
// what is promised of each.

#![tactic(auto)]

pub fn nothing() {}
