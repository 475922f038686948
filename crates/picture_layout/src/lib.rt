//! Where the boxes of a tree are drawn, in units of a vector graphic: a column for each leaf, and a
//! parent over the middle of its children.
#![tactic(auto)]

mod layout;
mod lengths;

pub use layout::{
    BOX_HEIGHT, COLUMN_GAP, Corner, NodeBox, ROW_GAP, boxes_of, lowest_row, right_edge,
};
pub use lengths::{minus, plus, times};
