// What the programs do between reading bytes and writing text.
#![tactic(auto)]

pub mod lines;
pub mod tables;
