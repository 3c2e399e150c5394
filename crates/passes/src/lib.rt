// What the crates that go over samples share.
#![tactic(auto)]

pub mod parts;
