// The sweep over the claims of a batch: groups that hold one of its numbers are joined.
#![tactic(auto)]

ghost use Rattle.std.specs.Prelude.{◌≡◌, true, ◌&&◌, ◌≤◌, ◌<◌, length};
ghost use Rattle.sorting.specs.Order.{in_order};
ghost use Rattle.group_numbers.specs.Batch.{batch, ClaimsHeld, Swept};

use group_numbers::{Claims, unite};

// Joins the owners of claims that reach the same number of the batch: of the claims so far `last` is the owner of the one that reaches farthest.
pub fn sweep(xs: &[u32], claims: &Claims, k: &mut [u32])
    requires xs_value { in_order xs.now ≡ true }
    requires xs_len_bound { length xs.now ≤ batch }
    requires claims { ClaimsHeld claims.now k.old }
    ensures { Swept xs.now claims.now.ends claims.now.owners k.old k.new }
{
    let mut end: u64 = 0;
    let mut last: usize = 0;
    for (q, &x) in xs.iter().enumerate() {
        let next = claims.ends[q];
        let owner = claims.owners[q] as usize;
        if (x as u64) < end && 0 < next {
            unite(k, last, owner);
        }
        if end < next {
            end = next;
            last = owner;
        }
    }
}
