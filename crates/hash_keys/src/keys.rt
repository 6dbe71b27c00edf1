//! Keys of hash tables.
use std::hash::{BuildHasher, DefaultHasher, RandomState};

/// What a hash table is hashed with. Where it is secret, strangers can't choose entries that
/// collide. Of entries that collide, each one more costs as much time as there are already. The
/// keys show in no answer.
#[derive(Clone, Copy)]
pub struct HashKeys {
    begun: DefaultHasher,
}

impl HashKeys {
    /// Keys that everybody knows, for tables whose entries no stranger chooses.
    pub fn known() -> HashKeys {
        HashKeys {
            begun: DefaultHasher::new(),
        }
    }

    /// Keys that only those know who know `state`, which a program draws at random.
    pub fn secret(state: &RandomState) -> HashKeys {
        HashKeys {
            begun: state.build_hasher(),
        }
    }
}

impl BuildHasher for HashKeys {
    type Hasher = DefaultHasher;

    ghost build_hasher = { λ keys. keys.begun };

    fn build_hasher(&self) -> DefaultHasher {
        self.begun
    }
}
