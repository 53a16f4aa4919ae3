// The bytes of Keccak's state: one is xored in, the first 32 are the digest.
#![tactic(auto)]

ghost use Rattle.std.specs.Prelude.{◌≡◌, ◌<◌};
ghost use Rattle.keccak_bytes.specs.Sponge.{squeezed};
ghost use Rattle.keccak_bytes.specs.XorByte.{xor_byte};

// The digest.
#[repr(C)]
#[derive(Clone, Copy)]
pub struct Digest {
    pub bytes: [u8; 32],
}

// A byte xored into its place in the state.
pub fn xor_byte(lanes: &mut [u64; 25], place: usize, byte: u8)
    requires { place < 136 }
    ensures { lanes.new ≡ xor_byte lanes.old place byte }
{
    let shift = 8 * (place % 8);
    lanes[place / 8] ^= (byte as u64) << shift as u64;
}

// The first 32 bytes of the state.
pub fn squeeze(lanes: &[u64; 25]) -> Digest
    ensures { result.bytes ≡ squeezed lanes.now }
{
    let mut bytes = [0u8; 32];
    for i in 0..32 {
        let shift = 8 * (i % 8);
        bytes[i] = (lanes[i / 8] >> shift as u64 & 0xFF) as u8;
    }
    Digest { bytes }
}
