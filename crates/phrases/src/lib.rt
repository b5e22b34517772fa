// Words for what a frame, terms and 01's numbers say, written on a page. Each function asks for the room of its longest answer.
#![tactic(auto)]

pub mod frames;
pub mod spelling;
pub mod tables;
