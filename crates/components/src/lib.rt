// The components that the members of a whole make of the groups: groups that hold one member are joined. The members are put in order, BATCH at
// a time, and a pair of a group is looked up among them by halves, so that the steps are in proportion to the members and, for each batch, to the
// pairs and to the records of the groups' lists, whatever the table.
#![tactic(auto)]

ghost use Rattle.std.specs.Prelude.{◌≡◌, true, ◌||◌, ◌+◌, ◌≤◌, length};
ghost use Rattle.lists.specs.Lists.{mem};
ghost use Rattle.table.specs.Layout.{most_groups};
ghost use Rattle.table.specs.GroupPart.{GroupsPart, groups_in};
ghost use Rattle.sorting.specs.Order.{in_order};
ghost use Rattle.group_numbers.specs.Components.{Components};
ghost use Rattle.group_numbers.specs.Batch.{batch, Numbers, JoinsMore};

use buffers::clear;
use claim_sweep::sweep;
use group_claims::take_groups;
use group_numbers::{BATCH, Claims};
use sorting::gather;

// Joins the groups that hold one of the members, which are in order, at most BATCH.
fn join_sorted(part: &[u32], k: &mut [u32], xs: &[u32])
    requires groups_part { GroupsPart part.now }
    requires numbers { Numbers k.old }
    requires xs_value { (in_order xs.now ≡ true) × (length xs.now ≤ batch) }
    ensures { JoinsMore (groups_in part.now) (λ m. mem m xs.now) k.old k.new }
{
    let mut claims = Claims {
        ends: [0; BATCH],
        owners: [0; BATCH],
    };
    take_groups(part, xs, &mut claims, k);
    sweep(xs, &claims, k);
}

// The same for members of two lists, at most BATCH together, in any order.
fn join_few(part: &[u32], k: &mut [u32], a: &[u32], b: &[u32])
    requires groups_part { GroupsPart part.now }
    requires numbers { Numbers k.old }
    requires b_len_bound { length a.now + length b.now ≤ batch }
    ensures { JoinsMore (groups_in part.now) (λ m. mem m a.now || mem m b.now) k.old k.new }
{
    let n = a.len() + b.len();
    let mut xs = [0u32; BATCH];
    gather(&mut xs[0..n], a, b);
    join_sorted(part, k, &xs[0..n]);
}

// Finds the components that the members of two lists make of the groups of a section: BATCH of them at a time.
pub fn components(part: &[u32], k: &mut [u32], a: &[u32], b: &[u32])
    requires groups_part { GroupsPart part.now }
    requires k_len { length k.old ≡ most_groups }
    ensures { Components (groups_in part.now) (λ m. mem m a.now || mem m b.now) k.new }
{
    clear(k);
    // two lists share a batch: each batch walks the pairs of all groups
    let mut a = a;
    let mut b = b;
    while !a.is_empty() || !b.is_empty() {
        let (x, more_a) = a.split_at(a.len().min(BATCH));
        let (y, more_b) = b.split_at(b.len().min(BATCH - x.len()));
        join_few(part, k, x, y);
        a = more_a;
        b = more_b;
    }
}
