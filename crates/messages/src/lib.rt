// The kinds of message that the desk files.
#![tactic(auto)]

pub mod kinds;
