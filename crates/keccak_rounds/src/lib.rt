// Keccak-f[1600], the permutation of the sponge (02, Item 10): the rounds.
#![tactic(auto)]

use keccak_f::{chi, theta};
use keccak_lanes::{iota, pi, rho};

// What iota xors into lane (0, 0) in each round.
const ROUND_CONSTANTS: [u64; 24] = [
    0x0000000000000001,
    0x0000000000008082,
    0x800000000000808A,
    0x8000000080008000,
    0x000000000000808B,
    0x0000000080000001,
    0x8000000080008081,
    0x8000000000008009,
    0x000000000000008A,
    0x0000000000000088,
    0x0000000080008009,
    0x000000008000000A,
    0x000000008000808B,
    0x800000000000008B,
    0x8000000000008089,
    0x8000000000008003,
    0x8000000000008002,
    0x8000000000000080,
    0x000000000000800A,
    0x800000008000000A,
    0x8000000080008081,
    0x8000000000008080,
    0x0000000080000001,
    0x8000000080008008,
];

ghost use Rattle.std.specs.Prelude.{◌≡◌};
ghost use Rattle.keccak_f.specs.Permutation.{round, keccak_f};

fn round(a: &[u64; 25], rc: u64) -> [u64; 25]
    ensures { result ≡ round a.now rc }
{
    let t = theta(a);
    let r = rho(&t);
    let p = pi(&r);
    let c = chi(&p);
    iota(c, rc)
}

// The permutation: a round for each constant.
pub fn permute(mut a: [u64; 25]) -> [u64; 25]
    ensures { result ≡ keccak_f a }
{
    for rc in ROUND_CONSTANTS {
        a = round(&a, rc);
    }
    a
}
