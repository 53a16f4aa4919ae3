// Walks over the decompositions: their heads, how deep they stand, and the index of them.
#![tactic(auto)]

ghost use Rattle.std.specs.Prelude.{◌≡◌, true, ◌+◌, ◌≤◌, length, replicate};
ghost use Rattle.table.specs.Part.{heads_in};
ghost use Rattle.sound_parts.specs.Parts.{Holds, as_headed};
ghost use Rattle.quick_local.specs.Local.{Levels};
ghost use Rattle.quick_filters.specs.Filter.{filter_words, holds};
ghost use Rattle.quick_filters.specs.Slot.{most_looked, slot_count};
ghost use Rattle.quick_levels.specs.Walk.{Each, Few, Apart, HeadsNoted, Lifted, RecordLifted, Indexed};

use quick_filters::filters::{may_hold, note};
use quick_filters::slots::keep;
use sound_parts::spared::plain_head;

// Puts every head into the filter, unless one is not plain or has more than two items.
pub fn note_heads(part: &[u32], heads: &mut [u32]) -> bool
    requires { Holds as_headed part.now × (length heads.old ≡ filter_words) }
    ensures { HeadsNoted part.now heads.old heads.new result }
{
    // by hand: a record's length is its own, and the place goes on by it
    let mut i: usize = 0;
    while i < part.len() {
        let head = part[i];
        let n = part[i + 1] as usize;
        if 2 < n {
            return false;
        }
        if !plain_head(head) {
            return false;
        }
        note(heads, head);
        i += n + 2;
    }
    true
}

// Puts the head of the record of n items at i into `to` if one of them is in `from`.
fn lift_record(part: &[u32], i: usize, n: usize, from: &[u32], to: &mut [u32]) -> bool
    requires le_n { (1 ≤ n) × (n ≤ 2) × (i + 2 + n ≤ length part.now) }
    requires from_len { (length from.now ≡ filter_words) × (length to.old ≡ filter_words) }
    ensures { RecordLifted part.now i n from.now to.old to.new result }
{
    let first = may_hold(from, part[i + 2]);
    let last = may_hold(from, part[i + 1 + n]);
    if first | last {
        note(to, part[i]);
        return true;
    }
    false
}

// Puts the head of every record with an item in `from` into `to`, and answers whether there is one.
fn lift(part: &[u32], from: &[u32], to: &mut [u32]) -> bool
    requires holds { Holds as_headed part.now × Each Few (heads_in part.now) }
    requires from_len { (length from.now ≡ filter_words) × (length to.old ≡ filter_words) }
    ensures { Lifted part.now from.now to.old to.new result }
{
    let mut any = false;
    // by hand: a record's length is its own, and the place goes on by it
    let mut i: usize = 0;
    while i < part.len() {
        let n = part[i + 1] as usize;
        let more = lift_record(part, i, n, from, to);
        any = any | more;
        i += n + 2;
    }
    any
}

// Whether the heads stand at most three deep.
pub fn stand_in_levels(part: &[u32], heads: &[u32]) -> bool
    requires holds { Holds as_headed part.now × Each Few (heads_in part.now) }
    requires heads_len { length heads.now ≡ filter_words }
    ensures { result ≡ true → Levels (heads_in part.now) (holds heads.now) }
{
    let mut low = [0u32; 1024];
    let mut high = [0u32; 1024];
    lift(part, heads, &mut low);
    lift(part, &low, &mut high);
    !lift(part, &high, &mut low)
}

// Puts the records with two items into an index by their words from `off` on, unless two of them agree in these.
pub fn index_records(part: &[u32], off: usize, slots: &mut [u32]) -> bool
    requires holds { Holds as_headed part.now × (off ≤ 2) }
    requires part_len_bound { (length part.now ≤ most_looked) × (slots.old ≡ replicate slot_count 0) }
    ensures { result ≡ true → Indexed part.now off slots.new }
{
    // by hand: a record's length is its own, and the place goes on by it
    let mut i: usize = 0;
    while i < part.len() {
        let n = part[i + 1] as usize;
        if !keep(part, slots, n, i + off) {
            return false;
        }
        i += n + 2;
    }
    true
}

// Whether no two records with two items have the same ones.
pub fn items_once(part: &[u32]) -> bool
    requires { Holds as_headed part.now × (length part.now ≤ most_looked) }
    ensures { result ≡ true → Apart 2 (heads_in part.now) }
{
    let mut slots = [0u32; 2048];
    index_records(part, 2, &mut slots)
}
