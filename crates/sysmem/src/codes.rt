//! The codes that exported functions return.

pub(crate) const DONE: u32 = 0;

pub(crate) const NOT_OPEN: u32 = 1;

pub(crate) const ALREADY_OPEN: u32 = 2;

pub(crate) const BAD_LIMITS: u32 = 3;

pub(crate) const BAD_CALL: u32 = 4;

pub(crate) const HISTORY_FULL: u32 = 5;

pub(crate) const NO_MEMORY: u32 = 6;

pub(crate) const NOT_FAILED: u32 = 7;

pub(crate) const NO_NAME: u32 = 8;

pub(crate) const NO_CLIENT: u32 = 9;
