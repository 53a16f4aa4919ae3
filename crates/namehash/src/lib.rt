// The name hash of EIP-137 (02, Item 10). specs/Namehash.antt states it, and what the call answers.
#![tactic(auto)]

ghost use Rattle.namehash.specs.Promise.{NamehashCalls};

use answers::{AcceptedName, Refusal};
use keccak_bytes::Digest;
use name::admit::first_not_scalar;
use name_node::{no_node, node_of};

// What the name call answers, and the hash of that answer: 32 zero bytes beside a refusal, since both cross to C in any case.
#[derive(Clone, Copy)]
pub struct HashedName {
    pub answer: Result<AcceptedName, Refusal>,
    pub node: Digest,
}

// The hash of the normal form of a name. Its codepoints are looked through for 4, which comes last.
pub fn namehash(
    input: &[u32],
    words: &[u32],
    setting: u32,
    answer: &mut [u32],
    work: &mut [u32],
) -> HashedName
    ensures { NamehashCalls setting words.now input.now answer.old answer.new work.old work.new result }
{
    let found = name_call::name(input, words, setting, answer, work);
    let length = match found {
        Ok(name) => name.length,
        Err(_) => {
            return HashedName {
                answer: found,
                node: no_node(),
            };
        }
    };
    match first_not_scalar(&answer[..length]) {
        Some(at) => {
            buffers::clear(answer);
            HashedName {
                answer: Err(Refusal::NotScalar(at)),
                node: no_node(),
            }
        }
        None => HashedName {
            answer: found,
            node: node_of(&answer[..length]),
        },
    }
}
