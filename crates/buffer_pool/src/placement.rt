//! What placing buffers answers.
/// Where buffers were placed.
#[derive(Drop)]
pub struct Placed {
    /// The first page of each buffer, in the order in which they were placed.
    pub starts: Vec<u32>,
    /// At how many holes a first fit over a plain list looks for these buffers: for each buffer, at
    /// those that begin at or before its start. Each of the two walks of `place` looks at no more.
    pub looks: u64,
}

/// Why no buffer was placed.
#[derive(Clone, Copy, Debug, PartialEq, Eq)]
pub enum PoolFault {
    /// A growth was refused.
    NoMemory,
    /// Some buffer has no place.
    PoolFull,
}
