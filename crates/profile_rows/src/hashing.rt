//! How maps hash what strangers choose.

ghost use Rattle.std.specs.Prelude.{ℕ, ◌≡◌, IfOk};
ghost use Rattle.std.specs.Hash.FoldHasher.{initial};
ghost use Rattle.profile_rows.specs.Hashing.{start_of_key};

use std::hash::{BuildHasher, FoldHasher, Hasher};
use std::io;
use std::random::RandomSource;

/// How a map hashes its keys: from a start that is fixed, or from one that nobody can guess. Whoever knows the start
/// can choose names that all fall into one place of a map, which makes it as slow as a list. No answer depends on it.
#[derive(Clone, Copy)]
pub struct Hashing {
    /// What each key's hash begins with.
    pub start: FoldHasher,
}

impl Hashing {
    /// From a start that is the same for every map. Good where nobody chooses the keys to do harm.
    pub fn fixed() -> Hashing
        ensures { result.start ≡ initial }
    {
        let start = FoldHasher::default();
        Hashing { start }
    }

    /// From a start that this key decides.
    pub fn of_key(key: u64) -> Hashing
        ensures { result.start ≡ start_of_key key }
    {
        let mut start = FoldHasher::default();
        start.write_u64(key);
        Hashing { start }
    }

    /// From a start that eight random bytes of the system decide. No clause says that they can't be guessed.
    ///
    /// # Errors
    ///
    /// Where the system has none to give.
    pub fn random(rt: &impl RandomSource) -> io::Result<Hashing>
        ensures { IfOk result (λ hashing. (key : ℕ) × (hashing.start ≡ start_of_key key)) }
    {
        let mut key = [0; 8];
        rt.fill_bytes(&mut key)?;
        Ok(Hashing::of_key(u64::from_le_bytes(key)))
    }
}

impl BuildHasher for Hashing {
    type Hasher = FoldHasher;

    ghost build_hasher = { λ hashing. hashing.start };

    fn build_hasher(&self) -> FoldHasher {
        self.start
    }
}
