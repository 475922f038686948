//! Pictures of a script's trees in the language of Graphviz.
#![tactic(auto)]

mod boxes;
mod legend;
mod links;
mod picture;
mod tables;

pub use picture::push_dot;
