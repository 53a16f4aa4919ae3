// A search by halves among entries of one length.
#![tactic(auto)]

ghost use Rattle.std.specs.Prelude.{◌≡◌, ◌≤◌};
ghost use Rattle.halving.specs.Halving.{Ranked, mask_most, if_most};

use std::num::wrapping_sub_u64;

// All bits where x is at most c, and else none: without a branch, which in a search would be a guess at each step. The product puts the upper
// half of a difference into both halves.
fn mask_most(x: u32, c: u32) -> u64
    ensures { result ≡ mask_most x c }
{
    let past = c as u64 + 1;
    (wrapping_sub_u64(x as u64, past) >> 32) * 0x100000001
}

// n where x is at most c, and else 0.
fn if_most(n: usize, x: u32, c: u32) -> usize
    ensures { result ≡ if_most n x c }
{
    n & mask_most(x, c) as usize
}

// The number of entries of `step` words whose first word is at most c, found by halves: right where the first words rise.
pub fn rank(part: &[u32], step: usize, c: u32) -> usize
    requires { (1 ≤ step) × (step ≤ 3) }
    ensures { Ranked part.now step c result }
{
    let mut low: usize = 0;
    let mut n = part.len() / step;
    if n == 0 {
        return 0;
    }
    // by hand: the library's search takes a closure, which would keep c, a codepoint of a label, in memory
    while 1 < n {
        let half = n / 2;
        let middle = low + half - 1;
        low += if_most(half, part[middle * step], c);
        n -= half;
    }
    low + if_most(1, part[low * step], c)
}
