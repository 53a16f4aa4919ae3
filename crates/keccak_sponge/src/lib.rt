// The sponge: its state goes in and comes back by value.
#![tactic(auto)]

ghost use Rattle.std.specs.Prelude.{◌≡◌};
ghost use Rattle.keccak_sponge.specs.State.{fresh, absorbed, digested};

use keccak_bytes::{Digest, squeeze, xor_byte};
use keccak_rounds::permute;

// The bytes of a block.
const RATE: usize = 136;

// The byte that starts the padding, and the bit that ends it.
const PADDING: u8 = 0x01;

const LAST: u8 = 0x80;

// The lanes, and how many bytes of the next block are in them: counted modulo 136. It crosses to C and back as it is, so any number may stand there.
#[repr(C)]
#[derive(Clone, Copy)]
pub struct Keccak256 {
    pub lanes: [u64; 25],
    pub fill: usize,
}

impl Keccak256 {
    // Nothing taken yet.
    pub fn new() -> Keccak256
        ensures { result ≡ fresh }
    {
        Keccak256 {
            lanes: [0; 25],
            fill: 0,
        }
    }

    // Takes bytes, a piece of any size.
    pub fn absorb(mut self, bytes: &[u8]) -> Keccak256
        ensures { result ≡ absorbed self bytes.now }
    {
        let mut lanes = self.lanes;
        let mut fill = self.fill % RATE;
        for &b in bytes {
            xor_byte(&mut lanes, fill, b);
            fill += 1;
            if fill == RATE {
                lanes = permute(lanes);
                fill = 0;
            }
        }
        self.lanes = lanes;
        self.fill = fill;
        self
    }

    // Finishes: the digest of all bytes taken.
    pub fn digest(mut self) -> Digest
        ensures { result.bytes ≡ digested self }
    {
        let place = self.fill % RATE;
        xor_byte(&mut self.lanes, place, PADDING);
        xor_byte(&mut self.lanes, RATE - 1, LAST);
        let lanes = self.lanes;
        let last = permute(lanes);
        squeeze(&last)
    }
}
