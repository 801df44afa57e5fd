// The keys by which bodies are found.
ghost use Rattle.std.specs.Prelude.{◌≡◌, List, ℕ};

use sha2::{Digest, Sha256};

/// One key for each body. Bodies that differ may have the same key.
pub trait Keying {
    ghost key_of: { List ℕ → List ℕ };

    fn key(body: &[u8]) -> [u8; 32]
        ensures { result ≡ key_of body.now };
}

/// The SHA-256 digest of FIPS 180-4.
pub enum ShaKeys {}

impl Keying for ShaKeys {
    ghost use Rattle.sha2.specs.Sha256.{sha256};

    ghost key_of = { sha256 };

    fn key(body: &[u8]) -> [u8; 32] {
        Sha256::digest(body)
    }
}

/// The same key for every body, for tests.
pub enum OneKey {}

impl Keying for OneKey {
    ghost use Rattle.std.specs.Prelude.{replicate};

    ghost key_of = { λ _. replicate 32 0 };

    fn key(_body: &[u8]) -> [u8; 32] {
        [0; 32]
    }
}
