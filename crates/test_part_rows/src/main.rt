//! Plays the lines of its input on one part of a core at a time, and writes each with its answer: `stdout` has what that is
//! to be. A line that begins with `#` is a comment. A heading makes a part anew: `table LIMIT GENERATION`, `pool PAGES`,
//! `counts LIMIT SEED` or `trackers LIMIT`. A number that a line lacks is 0. In answers `1 to 3` stands for 1, 2 and 3, and
//! `3 to 1` for 3, 2 and 1.
//!
//! A table. Nodes are numbered from 0 by birth.
//!
//!     root CONTENT, child P CONTENT     makes a root; a child of P
//!     block P CONTENT                   makes a child whose failure leaves P alone
//!     star P N, line P N                makes N children of P; the same, each the child of the one before. Prints the last
//!                                       one's slot and generation
//!     cut A                             cuts A off: it is alone if it has neither parent nor sibling then
//!     remove A, write A CONTENT, copy   removes A, and prints its content; changes it; goes on with a copy of the table
//!     turn P A B C                      cuts three children of P, makes one, and prints the children of P
//!     node A, children A                prints A with its neighbours; the children of A
//!     size                              prints how many nodes there are, and which slot is next
//!     fall A                            prints what a failure of A takes, and by how many visits
//!     walk A                            prints what a walk down from A lists that ends at nodes that block
//!
//! A pool.
//!
//!     place COUNT PAGES                 places buffers: prints their pages, and how many holes were looked at
//!     back FIRST LAST STEP              gives back the buffers that begin at these pages, one by one
//!     run START PAGES                   gives back at once all of this many pages that lie side by side from a page on
//!     held                              prints the pages of each buffer
//!
//! Counts. C is a client, B a buffer, S is `strong` or `weak`.
//!
//!     open C B S, close C B S           opens a handle of C on B; closes one
//!     next C B S                        opens one by a look behind the last one, which `anew` forgets
//!     lift C B S, land C B S            puts a handle of C into a parcel; lands one with C
//!     tidy C B S                        tidies
//!     own C B S                         prints how many C has, of how many
//!     all B                             prints the counts of clients 1 to 3, of the parcels and of all
//!     doomed B, home B, room            prints whether B is doomed; home; whether there is room
//!     alike N SEED                      prints how many of clients 1 to N hash alike, each with its own buffer. That of
//!                                       client C is called 100 + C
//!
//! Trackers. Nodes are called by their slots.
//!
//!     node A, lifetime A MOST, weak B   attaches a tracker at the next event
//!     lifetimes FIRST LAST N            attaches lifetimes of N nodes, for each number of buffers from the first to the last
//!     detach A                          attaches one and takes it out again
//!     pass                              begins the next event
//!     quiet, gone A, left N, doomed B   sweeps: nothing happened, A is gone, N buffers are left, B is doomed. Prints the
//!                                       trackers that fire, and the event
//!     down FIRST LAST                   sweeps at an event of its own for each number of buffers left
//!     take T, poll                      takes a reader, and asks what it knows; asks it again
//!     fired                             prints how many fired, and how many wait
#![tactic(auto)]

mod handles;
mod line;
mod nodes;
mod pages;
mod player;
mod runs;
mod verb;
mod watch;

use player::Player;
use std::alloc::Global;
use std::io;
use std::io::Write;
use std::test::Fail;
use test_streams::Text;

// Takes each line of a text, and puts it with its answer behind what is there.
fn take_lines(alloc: Global, input: &str, player: &mut Player, text: &mut Text) {
    for line in input.lines() {
        text.word(line);
        player.take(alloc, line, text);
        text.word("\n");
    }
}

// The same, from the first line on, where no part is made yet.
fn play(alloc: Global, input: &str, text: &mut Text) {
    let mut player = Player::None;
    take_lines(alloc, input, &mut player, text);
}

// Writes a text.
fn write(rt: &HostRuntime, text: &Text) -> Result<(), Fail> {
    match text.whole() {
        Some(bytes) => {
            io::writer(rt).write_all(bytes)?;
            Ok(())
        }
        None => Err(Fail::from("no memory")),
    }
}

fn main(rt: HostRuntime) -> Result<(), Fail> {
    let alloc = rt.alloc();
    let input = io::read_to_string(alloc, rt.reader())?;
    let mut text = Text::new(alloc);
    play(alloc, input.as_str(), &mut text);
    write(&rt, &text)
}
