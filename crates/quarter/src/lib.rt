// The quarter wave: `entries` has the table, `parts` the sine and cosine of a step of 1/4096 turn that are read from it.
#![tactic(auto)]

pub mod entries;
pub mod parts;
