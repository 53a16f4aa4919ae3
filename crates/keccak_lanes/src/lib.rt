// Keccak-f[1600]: the steps of a round that work lane by lane. Each is a step of the standard, with its own name; all that two of them share is the walk
// over the lanes.
#![tactic(auto)]

use keccak_f::rotate_left;

// How far rho rotates each lane.
const OFFSETS: [u64; 25] = [
    0, 1, 62, 28, 27, 36, 44, 6, 55, 20, 3, 10, 43, 25, 39, 41, 45, 15, 21, 8, 18, 2, 61, 56, 14,
];

// Where pi takes each lane from: lane (x, y) from (x + 3 y, x).
const SOURCES: [usize; 25] = [
    0, 6, 12, 18, 24, 3, 9, 10, 16, 22, 1, 7, 13, 19, 20, 4, 5, 11, 17, 23, 2, 8, 14, 15, 21,
];

ghost use Rattle.std.specs.Prelude.{◌≡◌};
ghost use Rattle.keccak_f.specs.Permutation.{rho, pi, iota};

// Each lane rotated by its offset.
pub fn rho(a: &[u64; 25]) -> [u64; 25]
    ensures { result ≡ rho a.now }
{
    let offsets = OFFSETS;
    let mut b = [0u64; 25];
    for i in 0..25 {
        b[i] = rotate_left(a[i], offsets[i]);
    }
    b
}

// Each lane in its new place.
pub fn pi(a: &[u64; 25]) -> [u64; 25]
    ensures { result ≡ pi a.now }
{
    let sources = SOURCES;
    let mut b = [0u64; 25];
    for i in 0..25 {
        b[i] = a[sources[i]];
    }
    b
}

pub fn iota(mut a: [u64; 25], rc: u64) -> [u64; 25]
    ensures { result ≡ iota a rc }
{
    a[0] ^= rc;
    a
}
