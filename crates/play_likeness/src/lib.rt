//! Whether a play is another one under other names, but for what lies behind actors that leave. The steps that made what
//! has a name tell its names in both plays.
#![tactic(auto)]

mod falls;
mod labels;
mod leavers;
mod made;
mod objects;
mod pairs;
mod plays;
mod slots;
mod stages;

pub use plays::plays_are_alike;
