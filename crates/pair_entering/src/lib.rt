// Every record of a section put into the index of the decompositions of two items.
#![tactic(auto)]

ghost use Rattle.std.specs.Prelude.{◌≡◌, true, ◌≤◌, length, replicate};
ghost use Rattle.lists.specs.Lists.{is_some};
ghost use Rattle.table.specs.Layout.{most_parts, headed};
ghost use Rattle.pair_index.specs.Index.{known_words, part_records, Entering, Filled};

use pair_index::enter;

// Puts the records of n items from `from` on into the index, up to the first of another count. Such records make runs in a table: the place of
// the next one is then known before the count of this one is read.
// The promise only limits the result: every record before the place that is answered is in the index. How far it came is a matter of time alone:
// `enter_all` goes on from that place, and no answer depends on it.
fn enter_run(part: &[u32], unpaired: &mut [u32], n: usize, from: usize) -> usize
    requires { Entering part.now unpaired.old from × (length part.now ≤ 65535) }
    ensures { Entering part.now unpaired.new result × (from ≤ result) }
{
    // by hand: a record's length is its own, and the place goes on by it
    let mut i = from;
    while i < part.len() {
        if part[i + 1] as usize != n {
            return i;
        }
        enter(part, unpaired, n, i);
        i += n + 2;
    }
    i
}

// Puts every record of a section into the index.
pub fn enter_all(part: &[u32], unpaired: &mut [u32])
    requires part_value { (is_some (headed (length part.now) most_parts part.now) ≡ true) × (length part.now ≤ 65535) }
    requires unpaired_value { unpaired.old ≡ replicate known_words 0 }
    ensures { Filled (part_records part.now) unpaired.new }
{
    // by hand: a record's length is its own, and the place goes on by it
    let mut i: usize = 0;
    while i < part.len() {
        let n = part[i + 1] as usize;
        enter(part, unpaired, n, i);
        i = enter_run(part, unpaired, n, i + n + 2);
    }
}
