// How records cross the C boundary: flat ones for those that hold an enum, and the way there and back. The exports stand in `tilljingle`.
#![tactic(auto)]

pub mod captures;
pub mod fundamentals;
pub mod harmonics;
pub mod measured;
pub mod ports;
pub mod powers;
pub mod quotients;
pub mod readings;
pub mod signals;
pub mod times;
