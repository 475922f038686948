//! How tables of labels hash.
ghost use Rattle.std.specs.Prelude.{◌≡◌};
ghost use Rattle.std.specs.Hash.FoldHasher as fold;

use std::hash::{BuildHasher, FoldHasher, Hasher};

/// How the tables of a script's labels hash: from a seed, best one that the writer of the script does
/// not know. A writer who knows the seed can pick labels that fall into one place of a table; one who
/// does not know it can't. That is meant, and not proved: the hash is fast, and no cipher. The seed
/// changes what a look-up costs, and no answer.
#[derive(Clone, Copy)]
pub struct LabelHash {
    start: FoldHasher,
}

impl LabelHash {
    /// Hashes from this seed, best of random bytes. Costs O(1).
    pub fn new(seed: [u8; 16]) -> LabelHash
        ensures { result.start ≡ fold.write fold.initial seed }
    {
        let mut start = FoldHasher::default();
        start.write(&seed);
        LabelHash { start }
    }
}

impl BuildHasher for LabelHash {
    type Hasher = FoldHasher;

    ghost build_hasher = { λ labels. labels.start };

    fn build_hasher(&self) -> FoldHasher {
        self.start
    }
}
