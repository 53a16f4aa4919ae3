// The hash of the labels of a text, from the right: EIP-137, "namehash". specs/Node.antt states it.
#![tactic(auto)]

ghost use Rattle.std.specs.Prelude.{◌≡◌, true, ◌++◌, replicate};
ghost use Rattle.scalar.specs.Scalar.{is_scalar};
ghost use Rattle.utf8_scheme.specs.Scheme.{octets};
ghost use Rattle.keccak_bytes.specs.Sponge.{keccak256};
ghost use Rattle.keccak_sponge.specs.State.{absorbed};
ghost use Rattle.name.specs.Name.{labels_of};
ghost use Rattle.name_node.specs.Node.{octets_of, node};
ghost use Rattle.name_node.specs.Parts.{Scalars, Starts};

use keccak_bytes::Digest;
use keccak_sponge::Keccak256;

const STOP: u32 = 0x2E;

// 32 zero bytes.
pub fn no_node() -> Digest
    ensures { result.bytes ≡ replicate 32 0 }
{
    Digest { bytes: [0; 32] }
}

// The sponge with the UTF-8 octets of a codepoint taken.
fn absorb_one(sponge: Keccak256, c: u32) -> Keccak256
    requires { is_scalar c ≡ true }
    ensures { result ≡ absorbed sponge (octets c) }
{
    let one = [c];
    let mut bytes = [0u8; 4];
    match utf8::write(&one, &mut bytes) {
        Ok(n) => sponge.absorb(&bytes[..n]),
        Err(_) => sponge,
    }
}

// Keccak-256 of a label's UTF-8 bytes.
fn label_hash(label: &[u32]) -> Digest
    requires { Scalars label.now }
    ensures { result.bytes ≡ keccak256 (octets_of label.now) }
{
    let mut sponge = Keccak256::new();
    for &c in label {
        sponge = absorb_one(sponge, c);
    }
    sponge.digest()
}

// Keccak-256 over the hash of the remaining labels followed by that of the leftmost one.
fn joined(rest: Digest, label: Digest) -> Digest
    ensures { result.bytes ≡ keccak256 (rest.bytes ++ label.bytes) }
{
    let taken = Keccak256::new().absorb(&rest.bytes).absorb(&label.bytes);
    taken.digest()
}

// Where the last label of a text starts.
fn label_start(text: &[u32]) -> usize
    ensures { Starts text.now result }
{
    for i in (0..text.len()).rev() {
        if text[i] == STOP {
            return i + 1;
        }
    }
    0
}

// The hash of the labels of a text, from the right.
pub fn node_of(text: &[u32]) -> Digest
    requires { Scalars text.now }
    ensures { result.bytes ≡ node (labels_of text.now) }
{
    let mut node = no_node();
    if text.len() == 0 {
        return node;
    }
    let mut start = label_start(text);
    node = joined(node, label_hash(&text[start..]));
    // by hand: the step is the label's own length
    while 0 < start {
        let end = start - 1;
        start = label_start(&text[..end]);
        node = joined(node, label_hash(&text[start..end]));
    }
    node
}
