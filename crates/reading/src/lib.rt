// The walk, reading a record, and the reports of a stream.
#![tactic(auto)]

pub mod listing;
pub mod recording;
pub mod walking;
