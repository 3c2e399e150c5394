// The THD that a signal keeps: step 10 of the Rust's calculate_metrics, without its decibels.
#![tactic(auto)]

pub mod editions;
mod fundamental;
mod harmonics;
pub mod parts;
