//! The hasher of the names.
ghost use Rattle.std.specs.Prelude.{◌≡◌};
ghost use Rattle.bit_tables.specs.Seed.{seed_with};

use std::hash::{BuildHasher, DefaultHasher, Hasher};

/// A secret by which names are hashed: SipHash, which begins with two secret numbers. Whoever doesn't know them can't choose
/// names that collide.
#[derive(Clone, Copy)]
pub struct Seed {
    start: DefaultHasher,
}

impl Seed {
    /// The secret with these numbers, which should be random.
    pub fn new(first: u64, second: u64) -> Seed
        ensures { result ≡ seed_with first second }
    {
        let mut start = DefaultHasher::new();
        start.write_u64(first);
        start.write_u64(second);
        Seed { start }
    }
}

impl BuildHasher for Seed {
    type Hasher = DefaultHasher;

    ghost build_hasher = { λ seed. seed.start };

    fn build_hasher(&self) -> DefaultHasher {
        self.start
    }
}
