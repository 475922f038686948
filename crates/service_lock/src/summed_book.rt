//! One book with its sum, and the parts that were not handed out.
ghost use Rattle.std.specs.Prelude.{◌≡◌, ◌+◌, ◌<◌, ◌≤◌, ◌^◌};
ghost use Rattle.service_lock.specs.Units.{Moved, Written};

use crate::blank_books::MAX_SHARES;
use crate::moves::HandleMoves;
use std::marker::Model;
use std::sync::ledger::{Blank, Book, Ledger, Share};

/// A book with its sum, and a share of the book that has the parts that were not handed out, and that
/// counts the handles in parcels.
#[derive(Drop)]
pub(crate) struct SummedBook<L: Ledger> {
    book: Book<L>,
    total: u64,
    rest: Share<L>,
    left: u64,
}

impl<L: Ledger> Model for SummedBook<L> {
    ghost use Rattle.std.specs.Prelude.{◌≡◌, ◌+◌, ◌<◌, ◌^◌};
    ghost use Rattle.service_lock.specs.Units.{BookSums};

    ghost Value = { BookSums };

    ghost view = { λ t. record { total = t.book.total; carried = t.rest.amount; left = t.left } };

    ghost invariant = { λ t. (t.total ≡ t.book.total) × (t.rest.parts ≡ t.left + 1)
        × (t.left < 2 ^ 40) };
}

impl<L: Ledger> SummedBook<L> {
    /// Makes an empty book of this many parts, and keeps one of them for the parcels.
    pub fn new(blank: Blank, parts: u64) -> SummedBook<L>
        requires name { blank.name ≡ L.name }
        requires parts { (blank.parts ≡ L.parts) × (parts ≡ L.parts) }
        requires some { (0 < parts) × (parts ≤ 2 ^ 40) }
        ensures total { result.total ≡ 0 }
        ensures carried { result.carried ≡ 0 }
        ensures left { result.left + 1 ≡ parts }
    {
        let (book, rest) = blank.open::<L>();
        SummedBook {
            book,
            total: 0,
            rest,
            left: parts - 1,
        }
    }

    /// The sum.
    pub fn total(&self) -> u64
        ensures { result ≡ self.now.total }
    {
        self.total
    }

    /// The number of shares that can still be handed out.
    pub fn left(&self) -> u64
        ensures value { result ≡ self.now.left }
        ensures few { result < 2 ^ 40 }
    {
        self.left
    }

    /// Counts an event in the book and in the share of the event's client.
    pub fn write(&mut self, share: &mut Share<L>, moves: HandleMoves)
        requires part { 0 < share.old.parts }
        requires fits { self.old.total + moves.opened < 2 ^ 64 }
        requires enough { moves.dropped + moves.sent ≤ share.old.amount }
        requires there { moves.got ≤ self.old.carried }
        ensures written { Written self.old self.new moves }
        ensures amount { Moved share.old.amount share.new.amount moves }
        ensures left { self.new.left ≡ self.old.left }
        ensures parts { share.new.parts ≡ share.old.parts }
    {
        self.book.audit(share);
        self.rest.transfer(share, moves.got);
        share.transfer(&mut self.rest, moves.sent);
        self.book.sub(share, moves.dropped);
        self.book.add(share, moves.opened);
        self.total = self.total - moves.dropped + moves.opened;
    }

    /// Hands out an empty share.
    pub fn share(&mut self) -> Share<L>
        requires { 0 < self.old.left }
        ensures share { (result.parts ≡ 1) × (result.amount ≡ 0) }
        ensures same { (self.new.total ≡ self.old.total) × (self.new.carried ≡ self.old.carried) }
        ensures left { self.new.left + 1 ≡ self.old.left }
    {
        self.left -= 1;
        self.rest.split_off(1, 0)
    }

    /// Takes an empty share back, so that its part can be handed out again. No more parts than the book
    /// has can come back.
    pub fn take_back(&mut self, share: Share<L>)
        requires { (share.parts ≡ 1) × (share.amount ≡ 0) }
        ensures same { (self.new.total ≡ self.old.total) × (self.new.carried ≡ self.old.carried) }
        ensures left { self.old.left + 1 < 2 ^ 40 → self.new.left ≡ self.old.left + 1 }
        ensures all { 2 ^ 40 ≤ self.old.left + 1 → self.new.left ≡ self.old.left }
    {
        if self.left < MAX_SHARES - 1 {
            self.rest.merge(share);
            self.left += 1;
        }
    }
}
