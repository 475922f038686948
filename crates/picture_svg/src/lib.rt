//! Pictures of a script's trees as vector graphics.
#![tactic(auto)]

mod bars;
mod box_lines;
mod elements;
mod legend;
mod links;
mod picture;
mod tree;

pub use picture::push_svg;
