// Definitions and laws alone: specs/ says what always holds of the definition.

#![tactic(auto)]

pub fn nothing() {}
