// A filter of the confused characters of all wholes: 4,096 bits, one for each remainder of a codepoint. Where its bit is clear, a character is in
// no confused list, and the wholes need not be walked. It is a local array of the function that asks, and holds no text of a name.
#![tactic(auto)]

ghost use Rattle.std.specs.Prelude.{◌≡◌, true, length, replicate};
ghost use Rattle.lists.specs.Lists.{is_some};
ghost use Rattle.bit_sets.specs.Sets.{Put};
ghost use Rattle.sections.specs.Laid.{Laid};
ghost use Rattle.table.specs.Layout.{the_table, wholes};
ghost use Rattle.table.specs.Lookup.{whole_of};
ghost use Rattle.table.specs.Part.{wholes_in, WholeFound};
ghost use Rattle.confused_set.specs.Filter.{filter_words, placed, noted, Filter};

use bit_sets::{has, put};
use buffers::clear;
use sections::Sections;
use sections::lookup::whole_of;
use table::WholeLists;
use table::lookup::counted;

// The words of the filter. It is lent as so many words: a struct of it would have to name its table in a ghost field, and each clause to say which,
// which is no plainer.
pub const FILTER_WORDS: usize = 128;

// The fewest characters that the filter is made for. Making it takes as long as walking the wholes for one character.
const FEWEST: usize = 3;

// Puts the bits of the items.
fn note_items(set: &mut [u32], items: &[u32])
    requires { length set.old ≡ filter_words }
    ensures { Put set.old set.new (placed items.now) }
{
    for &c in items {
        put(set, c % 4096);
    }
}

// Puts the bits of the confused items of every whole of a section.
fn note_wholes(part: &[u32], set: &mut [u32])
    requires part_value { is_some (wholes (length part.now) part.now) ≡ true }
    requires set_len { length set.old ≡ filter_words }
    ensures { Put set.old set.new (noted (wholes_in part.now)) }
{
    // by hand: a record's length is its own, and the place goes on by it
    let mut i: usize = 0;
    while i < part.len() {
        let valid = counted(part, i);
        let confused = counted(part, valid.to);
        note_items(set, confused.of(part));
        i = confused.to;
    }
}

// Makes the filter for a text of so many characters. Of few it leaves every bit set, which rules nothing out.
// The promise only limits the result: a character whose bit is clear is in no confused list, and of a bit that is set nothing is promised. Which bits
// are set costs or saves time alone: `whole_by` searches the wholes where one is set, and its answer does not depend on it.
pub fn make_filter(words: &[u32], ix: Sections, set: &mut [u32], characters: usize)
    requires laid { Laid words.now ix }
    requires set_value { set.old ≡ replicate filter_words 0xFFFFFFFF }
    ensures { Filter (the_table words.now).wholes set.new }
{
    if characters < FEWEST {
        return;
    }
    clear(set);
    note_wholes(ix.wholes.of(words), set);
}

// Where the lists of the whole of c stand, if c is confused.
pub fn whole_by(words: &[u32], ix: Sections, set: &[u32], c: u32) -> Option<WholeLists>
    requires laid { Laid words.now ix }
    requires filter { Filter (the_table words.now).wholes set.now }
    ensures { WholeFound words.now (whole_of (the_table words.now).wholes c) result }
{
    if !has(set, c % 4096) {
        return None;
    }
    whole_of(words, ix, c)
}
