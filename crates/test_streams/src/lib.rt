//! Readers and writers for tests: they take a few bytes at a time, and fail where they are told to. And what the players
//! of rows share: the numbers of a line, and the text that a player writes.
#![tactic(auto)]

mod failing_writer;
mod fixed_writer;
mod numbers;
mod short_reader;
mod text;

pub use failing_writer::FailingWriter;
pub use fixed_writer::FixedWriter;
pub use numbers::decimal;
pub use short_reader::ShortReader;
pub use text::Text;
