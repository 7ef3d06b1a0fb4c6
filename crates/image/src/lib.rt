// The statement is in specs/; this crate has no code.
#![tactic(auto)]
