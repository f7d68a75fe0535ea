//! What the hashes of a text's names and types go by.
ghost use Rattle.std.specs.Prelude.{◌≡◌};
ghost use Rattle.std.specs.Hash.DefaultHasher as sip;
ghost use Rattle.mr_ast.specs.TextKey.{hasher_of_text};

use sha2::{Digest, Sha256};
use std::hash::{BuildHasher, DefaultHasher, Hasher};

/// A key for hashes: SipHash-1-3 that has taken the SHA-256 digest of a whole text. Whoever changes a name or a type of the text
/// changes the key, and with it all hashes: none can be chosen by the hash that it will have, and a text can only be tried. It
/// asks for no random source, and one text has one key. No clause says how evenly hashes are spread.
#[derive(Clone, Copy)]
pub struct TextKey {
    hasher: DefaultHasher,
}

impl TextKey {
    /// The key of a text.
    pub fn of(text: &[u8]) -> TextKey
        ensures { result.hasher ≡ hasher_of_text text.now }
    {
        let digest = Sha256::digest(text);
        let mut hasher = DefaultHasher::new();
        hasher.write(&digest);
        TextKey { hasher }
    }

    /// The key that goes by no text: for names that nobody else chooses.
    pub fn fixed() -> TextKey
        ensures { result.hasher ≡ sip.initial }
    {
        TextKey {
            hasher: DefaultHasher::new(),
        }
    }
}

impl BuildHasher for TextKey {
    type Hasher = DefaultHasher;

    ghost build_hasher = { λ k. k.hasher };

    fn build_hasher(&self) -> DefaultHasher {
        self.hasher
    }
}
