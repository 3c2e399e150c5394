// How many samples are no number, and how many are infinite.
#![tactic(auto)]

pub mod parts;
