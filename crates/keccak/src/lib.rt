// Keccak-256 (02, Item 10): the sponge over Keccak-f[1600], which takes bytes in pieces of any size.
#![tactic(auto)]

ghost use Rattle.std.specs.Prelude.{◌≡◌};
ghost use Rattle.keccak_bytes.specs.Sponge.{keccak256};

use keccak_bytes::Digest;
use keccak_sponge::Keccak256;

// The digest of a slice.
pub fn keccak256(bytes: &[u8]) -> Digest
    ensures { result.bytes ≡ keccak256 bytes.now }
{
    let taken = Keccak256::new().absorb(bytes);
    taken.digest()
}
