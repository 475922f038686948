//! What the rows of `test_script_rows` do not show: readers and writers that fail, and what is told at the end.
mod exits;
mod faults;
mod fixture;
mod lines;
mod report_texts;
mod threads;
mod turns;
