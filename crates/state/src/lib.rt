// What is asked of a unit or an event alone: soundness, the waiting list, the turn table, the event that octets are.
#![tactic(auto)]

pub mod events;
pub mod sound;
pub mod turns;
pub mod waiting;
