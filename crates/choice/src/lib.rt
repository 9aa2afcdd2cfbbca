// Definitions and laws alone: specs/ has the tests on numbers, and functions changed at one place.

#![tactic(auto)]

pub fn nothing() {}
