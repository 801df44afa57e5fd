// A hasher whose answers nobody can make collide.
ghost use Rattle.std.specs.Prelude.{◌≡◌, ◌++◌, ◌+◌, ◌%◌, ◌≤◌, length};
ghost use Rattle.content_store.specs.Digesting as digesting;
ghost use Rattle.sha2.specs.Sha256.{sha256};

use sha2::{Digest, Sha256};
use std::hash::Hasher;

/// A hasher by SHA-256: its digest so far is taken anew, with the bytes since, at every 256 bytes.
/// It costs some ten times as much as a quick hash. No memory is taken.
#[derive(Clone, Copy)]
pub struct ShaHasher {
    chain: [u8; 32],
    block: [u8; 256],
    // how many bytes were written, modulo 2^64
    written: u64,
}

impl Default for ShaHasher {
    ghost is_default = { λ s. s ≡ digesting.initial };

    fn default() -> Self {
        ShaHasher {
            chain: [0; 32],
            block: [0; 256],
            written: 0,
        }
    }
}

impl ShaHasher {
    /// The digest of what was written.
    pub fn digest(&self) -> [u8; 32]
        ensures { result ≡ digesting.digest self.now }
    {
        let used = (self.written % 256) as usize;
        digest_after(&self.chain, &self.block[..used])
    }

    // Writes bytes that end no later than the block.
    fn write_piece(&mut self, piece: &[u8])
        requires { self.old.written % 256 + length piece.now ≤ 256 }
        ensures { self.new ≡ digesting.write self.old piece.now }
    {
        let at = (self.written % 256) as usize;
        let end = at + piece.len();
        self.block[at..end].copy_from_slice(piece);
        self.written = self.written.wrapping_add(piece.len() as u64);
        if end == 256 {
            self.chain = digest_after(&self.chain, &self.block);
        }
    }
}

impl Hasher for ShaHasher {
    ghost write = { digesting.write };

    ghost finish = { digesting.finish };

    fn finish(&self) -> u64 {
        first_number(self.digest())
    }

    fn write(&mut self, bytes: &[u8]) {
        let mut at = 0;
        'pieces: while at < bytes.len() {
            let room = 256 - (self.written % 256) as usize;
            let end = bytes.len().min(at + room);
            self.write_piece(&bytes[at..end]);
            at = end;
        }
    }
}

// The digest of a digest and the bytes after it.
fn digest_after(chain: &[u8; 32], bytes: &[u8]) -> [u8; 32]
    ensures { result ≡ sha256 (chain.now ++ bytes.now) }
{
    let mut hasher = Sha256::new();
    hasher.update(chain);
    hasher.update(bytes);
    hasher.finalize()
}

// The first eight bytes of a digest as a number, the lowest first.
fn first_number(digest: [u8; 32]) -> u64
    ensures { result ≡ digesting.first_number digest }
{
    let [a, b, c, d, e, f, g, h, ..] = digest;
    u64::from_le_bytes([a, b, c, d, e, f, g, h])
}
