//! Counts of open handles, by client, buffer and strength.
ghost use Rattle.std.specs.Prelude.{◌<◌};

use crate::line::Line;
use crate::verb::Verb;
use buffer_holds::{CountHash, HandleKind, Hold, HoldFault, Holds};
use script_lines::Part;
use sm_names::{BufferName, ClientId, Strength};
use std::alloc::Global;
use std::hash::{BuildHasher, Hash, Hasher};
use test_streams::Text;

// The collection of all buffers but the twins.
const HERE: u64 = 7;

// The numbers of the twins begin behind this one.
const TWINS: u64 = 100;

/// The counts.
#[derive(Drop)]
pub struct Handles {
    holds: Holds,
}

// The buffer whose collection undoes what a client makes of the hash under the seed of zeros: with their client
// all twins hash alike.
fn twin(client: ClientId) -> BufferName {
    let mut hasher = CountHash::new([0; 16]).build_hasher();
    client.hash(&mut hasher);
    BufferName {
        collection: hasher.finish() ^ HERE,
        index: 0,
    }
}

// The buffer that a number stands for: an index, or the twin of a client.
fn buffer_of(number: u64) -> BufferName {
    match number.checked_sub(TWINS) {
        Some(client) => twin(client),
        None => BufferName {
            collection: HERE,
            index: u8::try_from(number).unwrap_or(u8::MAX),
        },
    }
}

// What the client and its twin hash to.
fn hash_of(hash: CountHash, client: ClientId) -> u64 {
    hash.hash_one(&Hold {
        client,
        kind: HandleKind {
            buffer: twin(client),
            strength: Strength::Strong,
        },
    })
}

// The seed of which each byte is this number.
fn bytes_of(seed: u64) -> [u8; 16] {
    [u8::try_from(seed).unwrap_or(u8::MAX); 16]
}

// How many of this many clients hash with their twins as the first one does.
fn alike_under(seed: u64, clients: u64) -> u64 {
    let hash = CountHash::new(bytes_of(seed));
    let first = hash_of(hash, 1);
    let mut alike: u64 = 0;
    for client in 0..clients {
        if hash_of(hash, client.wrapping_add(1)) == first {
            alike = alike.wrapping_add(1);
        }
    }
    alike
}

// The strength that a number stands for.
fn strength_of(number: u64) -> Strength {
    if number == 0 {
        Strength::Strong
    } else {
        Strength::Weak
    }
}

// The word for a strength.
fn word_of(strength: Strength) -> &'static str {
    match strength {
        Strength::Strong => ": strong",
        Strength::Weak => "; weak",
    }
}

// What a handle that was asked for is answered.
fn opened(done: Result<(), HoldFault>) -> &'static str {
    match done {
        Ok(()) => "",
        Err(HoldFault::TooMany) => ": too many",
        Err(HoldFault::NoMemory) => ": no memory",
    }
}

// What is said of an answer.
fn found(is_there: bool) -> &'static str {
    if is_there { "" } else { ": none" }
}

// What is said of a buffer, where no strong node is live and where one is.
fn both(without: bool, with: bool) -> &'static str {
    match (without, with) {
        (true, true) => ": yes, with a live strong node too",
        (true, false) => ": yes, with a live strong node no",
        (false, true) => ": no, with a live strong node yes",
        (false, false) => ": no",
    }
}

// What is said of a total.
fn way(is_same: bool) -> &'static str {
    if is_same {
        " in all"
    } else {
        " by another way"
    }
}

// What is said of room.
fn room(is_there: bool) -> &'static str {
    if is_there { ": yes" } else { ": no" }
}

impl Handles {
    /// Counts, within this limit for each buffer and strength, with this seed.
    pub fn new(alloc: Global, limit: u32, seed: u64) -> Handles {
        Handles {
            holds: Holds::with_seed(alloc, limit, bytes_of(seed)),
        }
    }

    // Lands a handle of a parcel with the client, if one is there.
    fn land(&mut self, client: ClientId, buffer: BufferName, strength: Strength) -> &'static str {
        if self.holds.moving(buffer, strength) == 0 {
            return found(false);
        }
        match self.holds.land(client, buffer, strength) {
            Ok(()) => found(true),
            Err(_) => ": no memory",
        }
    }

    // Takes a handle of a client into a parcel, with a place for the handle where it lands.
    fn lift(&mut self, client: ClientId, buffer: BufferName, strength: Strength) -> &'static str {
        match self.holds.reserve_landing() {
            Ok(()) => found(self.holds.lift(client, buffer, strength)),
            Err(_) => ": no memory",
        }
    }

    // Opens a handle on each buffer of a set, where there is room.
    fn open_each(&mut self, line: &Line) -> &'static str {
        let [client, set, strength, _] = line.numbers;
        if !self.holds.have_room() {
            return ": no room";
        }
        match self.holds.add_set(client, HERE, strength_of(strength), set) {
            Ok(()) => "",
            Err(_) => ": no memory",
        }
    }

    // What becomes of a handle, in a word.
    fn change(&mut self, line: &Line) -> &'static str {
        let [client, buffer, strength, _] = line.numbers;
        let (buffer, strength) = (buffer_of(buffer), strength_of(strength));
        match line.verb {
            Verb::Open => opened(self.holds.add(client, buffer, strength)),
            Verb::Next => opened(self.holds.add(client, buffer, strength)),
            Verb::Each => self.open_each(line),
            Verb::Close => found(self.holds.sub(client, buffer, strength)),
            Verb::Lift => self.lift(client, buffer, strength),
            Verb::Land => self.land(client, buffer, strength),
            Verb::Tidy => {
                self.holds.tidy(client, buffer, strength);
                ""
            }
            Verb::Anew => "",
            _ => ": not understood",
        }
    }

    // Puts the counts of a buffer and a strength behind what is there: of clients 1 to 3, of the parcels, and of
    // all. The latter is looked for twice.
    fn push_counts(&mut self, buffer: BufferName, strength: Strength, text: &mut Text) {
        text.word(word_of(strength));
        for client in 1..=3 {
            let own = u64::from(self.holds.of(client, buffer, strength));
            text.push(&[Part::Word(" "), Part::Number(own)]);
        }
        let moving = u64::from(self.holds.moving(buffer, strength));
        let total = u64::from(self.holds.total(buffer, strength));
        let near = u64::from(self.holds.total(buffer, strength));
        text.push(&[
            Part::Word(", "),
            Part::Number(moving),
            Part::Word(" in parcels, "),
            Part::Number(total),
            Part::Word(way(near == total)),
        ]);
    }

    // Puts how many handles of a strength a client has on a buffer behind what is there, and how many all have.
    fn push_own(&self, line: &Line, text: &mut Text) {
        let [client, buffer, strength, _] = line.numbers;
        let (buffer, strength) = (buffer_of(buffer), strength_of(strength));
        let own = u64::from(self.holds.of(client, buffer, strength));
        let total = u64::from(self.holds.total(buffer, strength));
        text.push(&[
            Part::Word(": "),
            Part::Number(own),
            Part::Word(" of "),
            Part::Number(total),
        ]);
    }

    // Whether a buffer is doomed, where no strong node is live and where one is.
    fn doomed(&self, buffer: BufferName) -> &'static str {
        both(
            self.holds.doomed(buffer, false),
            self.holds.doomed(buffer, true),
        )
    }

    // Whether it is home, where no strong node is live and where one is.
    fn home(&self, buffer: BufferName) -> &'static str {
        both(
            self.holds.home(buffer, false),
            self.holds.home(buffer, true),
        )
    }

    /// Takes a line, which changes the counts or asks for some.
    pub fn take(&mut self, line: &Line, text: &mut Text) {
        let [first, second, ..] = line.numbers;
        let buffer = buffer_of(first);
        match line.verb {
            Verb::All => {
                self.push_counts(buffer, Strength::Strong, text);
                self.push_counts(buffer, Strength::Weak, text);
            }
            Verb::Own => self.push_own(line, text),
            Verb::Alike => text.push(&[Part::Word(": "), Part::Number(alike_under(second, first))]),
            Verb::Doomed => text.word(self.doomed(buffer)),
            Verb::Home => text.word(self.home(buffer)),
            Verb::Room => text.word(room(self.holds.have_room())),
            _ => text.word(self.change(line)),
        }
    }
}
