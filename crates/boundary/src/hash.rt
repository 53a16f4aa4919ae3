// Keccak-256 and the name hash (02, Item 10): the sponge, its state by value, the digest of a slice, and the hash of a name.
ghost use Rattle.std.specs.Prelude.{◌≡◌};
ghost use Rattle.keccak_bytes.specs.Sponge.{keccak256};
ghost use Rattle.keccak_sponge.specs.State.{fresh, absorbed, digested};
ghost use Rattle.hash_crossing.specs.HashCrossing.{NamehashCrosses};

use hash_crossing::{WanlophengNamehash, cross_namehash};
use keccak_bytes::Digest;
use keccak_sponge::Keccak256;

// A sponge that has taken nothing.
#[unsafe(no_mangle)]
pub extern "C" fn wanlopheng_sponge_new() -> Keccak256
    ensures { result ≡ fresh }
{
    Keccak256::new()
}

// The sponge with a piece taken.
#[unsafe(no_mangle)]
pub extern "C" fn wanlopheng_sponge_absorb(sponge: Keccak256, bytes: &[u8]) -> Keccak256
    ensures { result ≡ absorbed sponge bytes.now }
{
    sponge.absorb(bytes)
}

// The digest of all bytes taken.
#[unsafe(no_mangle)]
pub extern "C" fn wanlopheng_sponge_digest(sponge: Keccak256) -> Digest
    ensures { result.bytes ≡ digested sponge }
{
    sponge.digest()
}

// The digest of a slice.
#[unsafe(no_mangle)]
pub extern "C" fn wanlopheng_keccak256(bytes: &[u8]) -> Digest
    ensures { result.bytes ≡ keccak256 bytes.now }
{
    keccak::keccak256(bytes)
}

// The hash of the normal form of a name, with the setting of the name call.
#[unsafe(no_mangle)]
pub extern "C" fn wanlopheng_namehash(
    input: &[u32],
    words: &[u32],
    setting: u32,
    answer: &mut [u32],
    work: &mut [u32],
) -> WanlophengNamehash
    ensures { NamehashCrosses setting words.now input.now answer.old answer.new work.old work.new result }
{
    cross_namehash(input, words, setting, answer, work)
}
