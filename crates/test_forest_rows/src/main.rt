//! Plays the trees of its input on a forest, and writes each line with what is seen after it: `stdout` has what that is to
//! be. Nodes are numbered from 0 by birth. A and B are the first and the last node of a range; if B is less than A, the order
//! is descending.
//!
//!     tree WORDS                        begins anew: an empty forest, 16 pages, no handle
//!     root                              makes a root
//!     child P N, unit P N               makes N children of P, in P's unit; attached ones
//!     line P N, chain P N               the same, each the child of the one before
//!     pairs P N                         makes N attached children of P, each with a child in its unit
//!     below A B                         makes a child of each node, in its unit
//!     ask A B CAMPING AT_LEAST SIZE, release A B, lose A B, dispensable A B, weaken A B, allowweak A B
//!                                       changes each node
//!     open I, close I                   opens or closes a strong handle on buffer I
//!     openweak, closeweak               opens or closes a weak one on buffer 0
//!     look                              settles the forest after changes of handles alone
//!     turn LINE                         makes the change of LINE node by node; prints how each altered the numbers of live,
//!                                       served and failed nodes
//!     node A, count A B, pool           prints a node; the numbers of live, served and failed nodes; the buffers and free
//!                                       pages
//!     born A                            prints the parent and the birth event of A, and whether A has changed since
//!     kept                              prints how many nodes and collections are kept, and whether a strong node is live, in
//!                                       this collection and the next
//!     leave                             ends the changes; the lines below come after it
//!     spend A B, forget A B             spends the end of each node; forgets each node, which must not be kept
//!     over, forget                      forgets all nodes that are not kept, in one pass; forgets the collection
//!     end A B                           node by node: spends its end, and checks that a pass forgets this node alone
//!
//! If a change is refused memory, the program checks that nothing changed, and makes the change again. It answers
//! `: not made` where a change may not be made, or was not made so.
#![tactic(auto)]

mod ground;
mod line;
mod past;
mod player;
mod texts;
mod verb;

use player::Player;
use std::alloc::Global;
use std::io::Write;
use std::test::Fail;
use std::{io, mem};
use test_streams::Text;

// Takes each line of a text, and puts it with its answer behind what is there.
fn take_lines(input: &str, player: &mut Player, text: &mut Text) {
    for line in input.lines() {
        text.word(line);
        player.take(line, text);
        text.word("\n");
    }
}

// The same, from an empty ground on. Answers whether there was memory for one.
fn play(alloc: Global, input: &str, text: &mut Text) -> bool {
    match Player::new(alloc) {
        Some(mut player) => {
            take_lines(input, &mut player, text);
            mem::drop(player);
            true
        }
        None => false,
    }
}

// Writes a text.
fn write(rt: &HostRuntime, text: &Text) -> Result<(), Fail> {
    match text.whole() {
        Some(bytes) => {
            io::writer(rt).write_all(bytes)?;
            Ok(())
        }
        None => Err(Fail::from("no memory")),
    }
}

fn main(rt: HostRuntime) -> Result<(), Fail> {
    let alloc = rt.alloc();
    let input = io::read_to_string(alloc, rt.reader())?;
    let mut text = Text::new(alloc);
    if !play(alloc, input.as_str(), &mut text) {
        return Err(Fail::from("no memory"));
    }
    write(&rt, &text)
}
