// Whether masterships, and what the queues hold, are in range. Every place of every array is looked at.
#![tactic(auto)]

pub mod masterships;
pub mod messages;
pub mod queues;
