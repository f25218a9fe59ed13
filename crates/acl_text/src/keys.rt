//! Keys of the hashes by which names are found.

use core::hash::keyed_hasher;
use std::hash::{BuildHasher, DefaultHasher, Hasher};

/// The two keys of a keyed hash.
#[derive(Clone, Copy)]
pub(crate) struct HashKeys {
    key0: u64,
    key1: u64,
}

impl HashKeys {
    /// Keys that are the same whatever the text.
    pub(crate) fn fixed() -> HashKeys {
        HashKeys { key0: 0, key1: 0 }
    }

    /// Keys that are a digest of a text.
    pub(crate) fn of_text(text: &[u8]) -> HashKeys {
        let mut digest = keyed_hasher(0, 0);
        digest.write(text);
        HashKeys::after(digest)
    }

    /// Keys that are a digest of words, each in its place.
    pub(crate) fn of_words(words: &[&str]) -> HashKeys {
        let mut digest = keyed_hasher(0, 0);
        for word in words {
            digest.write(word.as_bytes());
            digest.write_u8(0);
        }
        HashKeys::after(digest)
    }

    /// What a digest comes to, and what it comes to after a byte more.
    fn after(mut digest: DefaultHasher) -> HashKeys {
        let key0 = digest.finish();
        digest.write_u8(1);
        let key1 = digest.finish();
        HashKeys { key0, key1 }
    }
}

impl BuildHasher for HashKeys {
    type Hasher = DefaultHasher;

    ghost use Rattle.acl_text.specs.code.Keyed.{hasher_of};

    ghost build_hasher = { hasher_of };

    fn build_hasher(&self) -> DefaultHasher {
        keyed_hasher(self.key0, self.key1)
    }
}
