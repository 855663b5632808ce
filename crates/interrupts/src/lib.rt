// Requests and their grants (01 "One step"; 004 chapter 10): what the edges of the Port 3 pins latch, which request is granted, and how
// it is entered.
#![tactic(auto)]

pub mod edges;
pub mod entry;
pub mod grants;
