//! The state of a core as plain data: what answers and views read of it, what an event makes of it, and the
//! theorem that it then shows the history extended by this event. And the code of a core that needs no
//! forced step: its clients, its handles, and what is read of a call, of a reply and of one node.
#![tactic(auto)]

pub mod clients;
pub mod decision;
pub mod end_answers;
pub mod handle_changes;
pub mod laws;
pub mod reading;
pub mod task;
pub mod traits;
