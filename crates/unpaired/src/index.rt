// An index of the decompositions of two items: where those stand that may have two codepoints as items. Of equal ones every one is found, the first
// one first, whatever rule 7 says.
ghost use Rattle.std.specs.Prelude.{◌≡◌, length, replicate};
ghost use Rattle.sections.specs.Laid.{Laid};
ghost use Rattle.table.specs.Table.{Table};
ghost use Rattle.table.specs.Layout.{the_table};
ghost use Rattle.pair_index.specs.Index.{known_words, words_of, Bounds};
ghost use Rattle.unpaired.specs.Unpaired.{Unpaired};

use bit_sets::has;
use pair_entering::enter_all;
use pair_index::{SECONDS_PLACE, put_bit, slot_of};
use sections::Sections;
use table::Span;

// The bit that says that the index is made.
const MADE_PLACE: u32 = 43713;

// The longest section that is indexed: a place takes sixteen bits.
const MOST_INDEXED: usize = 65535;

// Makes the index in a blank set, unless the decompositions are too many.
pub fn index_pairs(words: &[u32], ix: Sections, unpaired: &mut [u32])
    requires laid { Laid words.now ix }
    requires unpaired_value { unpaired.old ≡ replicate known_words 0 }
    ensures { Unpaired (the_table words.now) unpaired.new }
{
    let part = ix.decompositions.of(words);
    if MOST_INDEXED < part.len() {
        return;
    }
    enter_all(part, unpaired);
    put_bit(unpaired, MADE_PLACE);
}

// Where the records of the items a and b stand, in a section of `len` words.
pub fn bounds_of(unpaired: &[u32], len: usize, a: u32, b: u32) -> Span
    requires { length unpaired.now ≡ known_words }
    ensures { (t : Table) → Unpaired t unpaired.now → words_of t.decompositions ≡ len → Bounds t.decompositions a b result }
{
    if !has(unpaired, MADE_PLACE) {
        return Span { from: 0, to: len };
    }
    if !has(unpaired, SECONDS_PLACE + b % 4096) {
        return Span { from: 0, to: 0 };
    }
    let k = slot_of(a, b);
    let v = unpaired[k];
    Span {
        from: (v % 65536) as usize,
        to: (v / 65536) as usize,
    }
}
