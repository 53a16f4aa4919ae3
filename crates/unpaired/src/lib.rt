// Composition pairs among the decomposition records. Which records are no composition pairs is found once in a call: `unpaired` is lent by the
// call and has a bit for each record that was found to be none; behind them one that says that rule 8 was found to hold, and an index of the
// records.
#![tactic(auto)]

pub mod index;

use bit_sets::has;
use pair_index::put_bit;
use sections::Sections;
use text::class;

// The words of that set: 1,366 of bits for the records, of which at most 43,691 stand in 131,073 words, one of two bits more, and the index.
pub const KNOWN_WORDS: usize = 2519;

// The bit that says that text outside the quick-check set whose classes stand in order is its own NFC.
pub const QUICK_PLACE: u32 = 43712;

ghost use Rattle.std.specs.Prelude.{◌≡◌, ◌<◌};
ghost use Rattle.sections.specs.Laid.{Laid};
ghost use Rattle.table.specs.Layout.{the_table};
ghost use Rattle.unpaired.specs.Unpaired.{may_compose, pair_places, is_pair_at, Unpaired, Asked};

// Whether a decomposition of head to two items, the first of them a, is a composition pair.
pub fn may_compose(head: u32, words: &[u32], ix: Sections, a: u32) -> bool
    requires { Laid words.now ix }
    ensures { result ≡ may_compose (the_table words.now) head a }
{
    !sections::lookup::is_excluded(words, ix, head)
        && class::class_of(words, ix, head) == 0
        && class::class_of(words, ix, a) == 0
}

// The same of the record with the bit `number`, which is asked for once if it is none.
pub fn is_pair(
    words: &[u32],
    ix: Sections,
    head: u32,
    unpaired: &mut [u32],
    number: u32,
    a: u32,
) -> bool
    requires laid { Laid words.now ix }
    requires unpaired { Unpaired (the_table words.now) unpaired.old × (number < pair_places) }
    requires number_value { is_pair_at (the_table words.now) number ≡ may_compose (the_table words.now) head a }
    ensures { Asked (the_table words.now) unpaired.new (may_compose (the_table words.now) head a) result }
{
    if has(unpaired, number) {
        return false;
    }
    if may_compose(head, words, ix, a) {
        return true;
    }
    put_bit(unpaired, number);
    false
}
