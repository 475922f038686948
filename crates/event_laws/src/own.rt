//! What a client keeps of an event.
ghost use Rattle.std.specs.Prelude.{◌≡◌, ◌≢◌, true, false};

use sm_names::{Call, Reply};

/// An event that a client made, as the client has it: its number in the record, from 1, what was
/// asked, and what was answered.
#[derive(Clone, Copy, PartialEq, Eq)]
pub struct Own {
    pub event: u64,
    pub call: Call,
    pub reply: Reply,
}

// Whether both calls are one.
fn same_call(a: &Call, b: &Call) -> bool
    ensures yes { result ≡ true → a.now ≡ b.now }
    ensures no { result ≡ false → a.now ≢ b.now }
{
    *a == *b
}

// Whether both replies are one.
fn same_reply(a: &Reply, b: &Reply) -> bool
    ensures yes { result ≡ true → a.now ≡ b.now }
    ensures no { result ≡ false → a.now ≢ b.now }
{
    *a == *b
}

impl Own {
    // Whether both are one.
    pub(crate) fn is(&self, told: &Own) -> bool
        ensures yes { result ≡ true → self.now ≡ told.now }
        ensures no { result ≡ false → self.now ≢ told.now }
    {
        self.event == told.event
            && same_call(&self.call, &told.call)
            && same_reply(&self.reply, &told.reply)
    }
}
