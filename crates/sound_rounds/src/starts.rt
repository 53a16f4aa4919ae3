// The codepoints that rounds start with: the groups' characters, or the heads of the decompositions.
ghost use Rattle.std.specs.Prelude.{◌≡◌, cond, ◌+◌, length};
ghost use Rattle.lists.specs.Lists.{mem};
ghost use Rattle.table.specs.Layout.{groups};
ghost use Rattle.table.specs.Spans.{Fits, within};
ghost use Rattle.table.specs.Part.{in_pairs};
ghost use Rattle.table.specs.Part.{records_in};
ghost use Rattle.sound_parts.specs.Parts.{Holds, as_headed};
ghost use Rattle.bit_sets.specs.Sets.{Put, window_words};
ghost use Rattle.sound_choices.specs.Rounds.{heads_of, in_groups, starting, WindowOf};

use bit_sets::put_point;
use bit_sets::ranges::put_pairs;
use buffers::clear;
use records::Heads;
use table::lookup::group_at;

// Puts the heads of the records into the set that are in the window.
pub fn put_heads(part: &[u32], base: u32, set: &mut [u32])
    requires holds { Holds as_headed part.now }
    requires set_len { length set.old ≡ window_words }
    ensures { Put set.old set.new (λ d. mem (base + d) (heads_of (records_in as_headed part.now))) }
{
    for (head, _) in Heads::of(part) {
        put_point(set, base, head);
    }
}

// The same for the groups' characters.
pub fn put_groups(gs: &[u32], base: u32, set: &mut [u32])
    requires holds { Holds groups gs.now }
    requires set_len { length set.old ≡ window_words }
    ensures { Put set.old set.new (λ d. in_groups (base + d) (records_in groups gs.now)) }
{
    // by hand: a record's length is its own, and the place goes on by it
    let mut i: usize = 0;
    while i < gs.len() {
        let group = group_at(gs, i);
        put_pairs(set, base, group.pairs.of(gs));
        i = group.next;
    }
}

// The set of the heads that are in the window takes the place of the set.
pub fn heads_in(part: &[u32], base: u32, set: &mut [u32])
    requires holds { Holds as_headed part.now }
    requires set_len { length set.old ≡ window_words }
    ensures { WindowOf set.new (λ d. mem (base + d) (heads_of (records_in as_headed part.now))) }
{
    clear(set);
    put_heads(part, base, set);
}

// The same for the groups' characters.
pub fn groups_in(gs: &[u32], base: u32, set: &mut [u32])
    requires holds { Holds groups gs.now }
    requires set_len { length set.old ≡ window_words }
    ensures { WindowOf set.new (λ d. in_groups (base + d) (records_in groups gs.now)) }
{
    clear(set);
    put_groups(gs, base, set);
}

// Rounds start with the heads or with the groups' characters.
pub fn start_in(part: &[u32], gs: &[u32], headed: bool, base: u32, set: &mut [u32])
    requires holds { Holds as_headed part.now }
    requires holds_2 { Holds groups gs.now }
    requires set_len { length set.old ≡ window_words }
    ensures { WindowOf set.new (λ d. starting headed (records_in as_headed part.now)
        (records_in groups gs.now) (base + d)) }
{
    if headed {
        heads_in(part, base, set);
    } else {
        groups_in(gs, base, set);
    }
}
