//! Why a line is not read.

// Why a line is not read.
#[derive(Clone, Copy)]
pub(crate) enum Halt {
    BadLine,
    NoMemory,
}
