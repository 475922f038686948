//! What a picture of a script's trees shows, whatever its format: nodes, buffers, and the ways of
//! failures.
#![tactic(auto)]

pub mod colors;
mod failure_view;
mod features;
mod lines;
mod picture;
mod picture_state;
mod tree_order;

pub use failure_view::{Travel, TravelWay, travels_by_node, way_of};
pub use features::{
    Class, LinkStyle, class_of, class_sign, kind_name, link_of, push_free_pages, push_keepers,
    push_pages, push_place,
};
pub use lines::{
    push_asked_line, push_fired, push_header, push_kind_line, push_node_name, push_state_line,
};
pub use picture::{Picture, ToldMark, Tree, picture_of};
pub use picture_state::{PictureState, named_collection};
pub use tree_order::{children_by_key, nodes_by_key, parents_among};
