// The name hash for C and Rust, with the promise of the call that it hands on and its answer as a struct of plain numbers. The crate `boundary` gives
// it its name outside.
#![tactic(auto)]

ghost use Rattle.hash_crossing.specs.HashCrossing.{NamehashCrosses};

use fields::WanlophengName;
use keccak_bytes::Digest;

// What the name call answers, and the hash of its answer: 32 zero bytes beside a refusal.
#[repr(C)]
#[derive(Clone, Copy)]
pub struct WanlophengNamehash {
    pub name: WanlophengName,
    pub node: Digest,
}

// The hash of the normal form of a name, with the setting of the name call.
pub fn cross_namehash(
    input: &[u32],
    words: &[u32],
    setting: u32,
    answer: &mut [u32],
    work: &mut [u32],
) -> WanlophengNamehash
    ensures { NamehashCrosses setting words.now input.now answer.old answer.new work.old work.new result }
{
    let found = namehash::namehash(input, words, setting, answer, work);
    WanlophengNamehash {
        name: WanlophengName::from(found.answer),
        node: found.node,
    }
}
