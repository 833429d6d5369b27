use std::hash::{BuildHasher, FoldHasher, Hasher};

/// Two numbers that nobody can guess, which go into the hash of each key: who doesn't know them
/// can't choose names that are slow to find. No answer depends on them.
#[derive(Clone, Copy)]
pub struct Secret {
    /// Where each hash begins.
    pub first: u64,
    /// What each hash ends with.
    pub last: u64,
}

/// A hasher that has begun with a secret.
#[derive(Clone, Copy)]
pub struct SecretHasher {
    hasher: FoldHasher,
    last: u64,
}

impl BuildHasher for Secret {
    ghost use Rattle.std.specs.Hash.{u64 as bytes_of};
    ghost use Rattle.std.specs.Hash.FoldHasher.{initial, write};
    ghost use Rattle.std.specs.List.{fold};

    type Hasher = SecretHasher;

    ghost build_hasher = { λ s. record { hasher = fold write initial (bytes_of s.first); last = s.last } };

    fn build_hasher(&self) -> SecretHasher {
        let mut hasher = FoldHasher::default();
        hasher.write_u64(self.first);
        SecretHasher {
            hasher,
            last: self.last,
        }
    }
}

impl Hasher for SecretHasher {
    ghost use Rattle.std.specs.Hash.{u64 as bytes_of};
    ghost use Rattle.std.specs.Hash.FoldHasher as folding;
    ghost use Rattle.std.specs.List.{fold};

    ghost write = { λ s bytes. record s { hasher = folding.write s.hasher bytes } };

    ghost finish = { λ s. folding.finish (fold folding.write s.hasher (bytes_of s.last)) };

    fn finish(&self) -> u64 {
        let mut hasher = self.hasher;
        hasher.write_u64(self.last);
        hasher.finish()
    }

    fn write(&mut self, bytes: &[u8]) {
        self.hasher.write(bytes);
    }
}
