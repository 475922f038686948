//! The pool of pages that buffers lie in: first fit, all or none, and pages that come back.
#![tactic(auto)]

mod block;
mod blocks;
mod holding;
mod holes;
pub mod laws;
pub mod pages;
pub mod placement;

pub use pages::Pool;
pub use placement::{Placed, PoolFault};
