// A search as it is put to each name: document 01, 'Engine and ledger'.
ghost use Rattle.std.specs.Prelude.{◌≡◌, ◌≤◌, length, take};
ghost use Rattle.message.specs.Build.{type_max};
ghost use Rattle.engine.specs.Wanted.{wanted_of};

use crate::advertisement::Endpoint;
use crate::sizes::TYPE_SIZE;
use crate::wanted::Wanted;

// Its target, which fits, and what that asks for; and of the replies that it opens the instant, the searcher, and the address that it reached. The target stands a second
// time as a row of a name holds it, with zeros behind it: it is copied into each row at once, and nothing of a longer answer type stays in what an owner lends.
#[derive(Clone, Copy)]
pub struct Search<'a> {
    pub target: &'a [u8],
    pub answer: [u8; TYPE_SIZE],
    pub wanted: Wanted,
    pub due: u64,
    pub sender: Endpoint,
    pub receiver: u32,
    pub ghost fits: { length target.now ≤ type_max },
    pub ghost padded: { take (length target.now) answer ≡ target.now },
    pub ghost found: { wanted ≡ wanted_of target.now },
}
