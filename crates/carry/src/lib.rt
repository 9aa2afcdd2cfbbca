// Definitions and laws alone: specs/ says what a call leaves in the slices where it moves a payload.

#![tactic(auto)]

pub fn nothing() {}
