// Rule 1 for sections of records: every codepoint named is a Unicode scalar value.
#![tactic(auto)]

ghost use Rattle.std.specs.Prelude.{◌≡◌};
ghost use Rattle.lists.specs.Lists.{all};
ghost use Rattle.table.specs.Layout.{sequences, groups, wholes};
ghost use Rattle.table.specs.Spans.{Fits, within};
ghost use Rattle.scalar.specs.Scalar.{is_scalar};
ghost use Rattle.soundness.specs.Scalars.{scalar_headed, scalar_group};
ghost use Rattle.table.specs.Part.{records_in};
ghost use Rattle.sound_parts.specs.Parts.{Holds, as_headed, scalar_whole, list_records, ListHolds};

use records::{Heads, Lists, Wholes};
use scalar::is_scalar;
use scalar_runs::{scalar_items, scalar_pairs};
use table::Span;
use table::lookup::group_at;

// Whether the heads and items of records head, count, items are scalar values.
fn scalar_heads(part: &[u32]) -> bool
    requires { Holds as_headed part.now }
    ensures { result ≡ scalar_headed (records_in as_headed part.now) }
{
    Heads::of(part).all(|(head, items)| is_scalar(head) && scalar_items(items))
}

// Whether the items of records count, items are scalar values.
fn scalar_sequences(part: &[u32]) -> bool
    requires { Holds sequences part.now }
    ensures { result ≡ all (all is_scalar) (records_in sequences part.now) }
{
    Lists::of(part).all(scalar_items)
}

// Whether the items of the records of a list are scalar values, if there is one.
fn scalar_list(part: &[u32], list: Option<Span>) -> bool
    requires { ListHolds part.now list }
    ensures { result ≡ all (all is_scalar) (list_records part.now list) }
{
    match list {
        Some(s) => scalar_sequences(s.of(part)),
        None => true,
    }
}

// Whether the pairs of groups and the items of their lists are scalar values.
fn scalar_groups(part: &[u32]) -> bool
    requires { Holds groups part.now }
    ensures { result ≡ all scalar_group (records_in groups part.now) }
{
    // by hand: a record's length is its own, and the place goes on by it
    let mut i: usize = 0;
    while i < part.len() {
        let group = group_at(part, i);
        if !scalar_pairs(group.pairs.of(part)) {
            return false;
        }
        if !scalar_list(part, group.list) {
            return false;
        }
        i = group.next;
    }
    true
}

// Whether the members of wholes are scalar values.
fn scalar_wholes(part: &[u32]) -> bool
    requires { Holds wholes part.now }
    ensures { result ≡ all scalar_whole (records_in wholes part.now) }
{
    Wholes::of(part).all(|(valid, confused)| scalar_items(valid) && scalar_items(confused))
}

// The same of the records of a part.
pub fn scalar_headed_of(words: &[u32], s: Span) -> bool
    requires fits { Fits words.now s }
    requires holds { Holds as_headed (within s words.now) }
    ensures { result ≡ scalar_headed (records_in as_headed (within s words.now)) }
{
    scalar_heads(s.of(words))
}

pub fn scalar_sequences_of(words: &[u32], s: Span) -> bool
    requires fits { Fits words.now s }
    requires holds { Holds sequences (within s words.now) }
    ensures { result ≡ all (all is_scalar) (records_in sequences (within s words.now)) }
{
    scalar_sequences(s.of(words))
}

pub fn scalar_groups_of(words: &[u32], s: Span) -> bool
    requires fits { Fits words.now s }
    requires holds { Holds groups (within s words.now) }
    ensures { result ≡ all scalar_group (records_in groups (within s words.now)) }
{
    scalar_groups(s.of(words))
}

pub fn scalar_wholes_of(words: &[u32], s: Span) -> bool
    requires fits { Fits words.now s }
    requires holds { Holds wholes (within s words.now) }
    ensures { result ≡ all scalar_whole (records_in wholes (within s words.now)) }
{
    scalar_wholes(s.of(words))
}
