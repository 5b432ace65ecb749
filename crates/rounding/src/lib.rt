// The theory of rounding: definitions and laws, all in specs/. There is no code.
#![tactic(auto)]
