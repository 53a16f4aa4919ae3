// Claims at the places of a batch: how far a group, the owner of the claim, holds the numbers of the batch from there on.
#![tactic(auto)]

ghost use Rattle.std.specs.Prelude.{◌≡◌, true, ◌&&◌, ◌≤◌, ◌<◌, length, leb, eqb};
ghost use Rattle.table.specs.Layout.{most_groups};
ghost use Rattle.table.specs.Lookup.{holds};
ghost use Rattle.table.specs.Part.{in_pairs};
ghost use Rattle.table.specs.GroupPart.{GroupsPart, groups_in};
ghost use Rattle.sorting.specs.Order.{in_order};
ghost use Rattle.group_numbers.specs.Components.{nth};
ghost use Rattle.group_numbers.specs.Batch.{batch, ClaimsHeld, ClaimSet, Takes, claimed};
ghost use Rattle.group_claims.specs.Gaps.{Between, Next};

use group_numbers::{Claims, meet};
use sorting::{count_below, if_below};
use table::lookup::group_at;

// Claims a place for group n, up to `end`; a group that has claimed it before gets one number with n.
fn claim(claims: &mut Claims, k: &mut [u32], at: usize, n: usize, end: u64)
    requires claims { ClaimsHeld claims.old k.old }
    requires at_lt_batch { (at < batch) × (n < most_groups) }
    ensures { ClaimSet at n end (claimed claims.old k.old) (claimed claims.new k.new) }
{
    let other = claims.ends[at];
    meet(k, 0 < other, claims.owners[at] as usize, n);
    if other < end {
        claims.ends[at] = end;
        claims.owners[at] = n as u8;
    }
}

// The first number of the batch, or 0.
fn first(xs: &[u32]) -> u32
    requires { in_order xs.now ≡ true }
    ensures { Between xs.now 0 result }
{
    xs.first().copied().unwrap_or(0)
}

// Whether a pair from a to b lies between two numbers: by one branch, since each end alone would be a guess among pairs in random order.
fn in_gap(low: u32, high: u32, a: u32, b: u32) -> bool
    ensures { result ≡ true → (low < a) × (b < high) }
{
    if_below(if_below(1, low, a), b, high) != 0
}

// Claims the numbers of the batch from a to b for group n. Answers the first number of the batch that is not below a.
fn take_pair(
    xs: &[u32],
    claims: &mut Claims,
    k: &mut [u32],
    n: usize,
    a: u32,
    b: u32,
) -> Option<u32>
    requires xs_value { in_order xs.now ≡ true }
    requires xs_len_bound { (length xs.now ≤ batch) × (n < most_groups) }
    requires claims { ClaimsHeld claims.old k.old }
    ensures takes { Takes (λ i x. eqb i n && (leb a x && leb x b)) xs.now
        (claimed claims.old k.old) (claimed claims.new k.new) }
    ensures next { Next xs.now a result }
{
    let at = count_below(xs, a);
    if xs.len() <= at {
        return None;
    }
    let next = xs[at];
    if b < next {
        return Some(next);
    }
    claim(claims, k, at, n, b as u64 + 1);
    Some(next)
}

// The same for the pairs of a group. A pair that lies between the start of the pair that was searched for last and the number that was found for it
// claims nothing and is not searched for: among sorted pairs most do.
fn take_pairs(pairs: &[u32], xs: &[u32], claims: &mut Claims, k: &mut [u32], n: usize)
    requires xs_value { in_order xs.now ≡ true }
    requires xs_len_bound { (length xs.now ≤ batch) × (n < most_groups) }
    requires claims { ClaimsHeld claims.old k.old }
    ensures { Takes (λ i x. eqb i n && in_pairs x pairs.now) xs.now
        (claimed claims.old k.old) (claimed claims.new k.new) }
{
    let mut low: u32 = 0;
    let mut high = first(xs);
    for pair in pairs.chunks_exact(2) {
        let a = pair[0];
        let b = pair[1];
        if in_gap(low, high, a, b) {
            continue;
        }
        low = a;
        high = take_pair(xs, claims, k, n, a, b).unwrap_or(u32::MAX);
    }
}

// The same for every group of a section.
pub fn take_groups(part: &[u32], xs: &[u32], claims: &mut Claims, k: &mut [u32])
    requires groups_part { GroupsPart part.now }
    requires xs_value { in_order xs.now ≡ true }
    requires xs_len_bound { length xs.now ≤ batch }
    requires claims { ClaimsHeld claims.old k.old }
    ensures { Takes (λ i x. holds (nth (groups_in part.now) i) x) xs.now
        (claimed claims.old k.old) (claimed claims.new k.new) }
{
    // by hand: a record's length is its own, and the place goes on by it
    let mut n: usize = 0;
    let mut at: usize = 0;
    while at < part.len() {
        let group = group_at(part, at);
        take_pairs(group.pairs.of(part), xs, claims, k, n);
        n += 1;
        at = group.next;
    }
}
