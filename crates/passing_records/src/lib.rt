// Rule 8, decomposition by decomposition: whether the head of each passes, and its second item.
#![tactic(auto)]

ghost use Rattle.lists.specs.Lists.{all};
ghost use Rattle.sections.specs.Laid.{Laid};
ghost use Rattle.table.specs.Spans.{Fits, within};
ghost use Rattle.table.specs.Layout.{the_table};
ghost use Rattle.table.specs.Part.{records_in};
ghost use Rattle.sound_parts.specs.Parts.{Holds, as_headed};
ghost use Rattle.unpaired.specs.Unpaired.{Unpaired, Asked};
ghost use Rattle.second_items.specs.Seconds.{SecondsHeld};
ghost use Rattle.records.specs.Left.{heads_left};
ghost use Rattle.passing_records.specs.Records.{record_passes, record_passes_in};

use passing::passes;
use records::Heads;
use second_items::second_held;
use sections::Sections;
use table::Span;

// Whether the head of a decomposition passes, and its second item, if it is a composition pair.
fn record_passes(
    words: &[u32],
    ix: Sections,
    unpaired: &mut [u32],
    held: bool,
    head: u32,
    items: &[u32],
) -> bool
    requires laid { Laid words.now ix }
    requires unpaired { Unpaired (the_table words.now) unpaired.old }
    requires seconds_held { SecondsHeld (the_table words.now) held }
    ensures { Asked (the_table words.now) unpaired.new (record_passes (the_table words.now) head items.now) result }
{
    if !passes(words, ix, unpaired, held, head) {
        return false;
    }
    if second_held(words, ix, head, items) {
        return true;
    }
    let second = items[1];
    passes(words, ix, unpaired, held, second)
}

// Whether the heads of the records and the second items of their composition pairs pass.
fn records_pass(words: &[u32], ix: Sections, unpaired: &mut [u32], held: bool, part: &[u32]) -> bool
    requires laid { Laid words.now ix }
    requires unpaired { Unpaired (the_table words.now) unpaired.old }
    requires seconds_held { SecondsHeld (the_table words.now) held }
    ensures { Asked (the_table words.now) unpaired.new (all (record_passes_in (the_table words.now)) (heads_left part.now)) result }
{
    for (head, items) in Heads::of(part) {
        if !record_passes(words, ix, unpaired, held, head, items) {
            return false;
        }
    }
    true
}

pub fn records_pass_of(
    words: &[u32],
    ix: Sections,
    unpaired: &mut [u32],
    held: bool,
    s: Span,
) -> bool
    requires laid { Laid words.now ix }
    requires unpaired { Unpaired (the_table words.now) unpaired.old }
    requires seconds_held { SecondsHeld (the_table words.now) held }
    requires fits { Fits words.now s }
    requires holds { Holds as_headed (within s words.now) }
    ensures { Asked (the_table words.now) unpaired.new (all (record_passes_in (the_table words.now)) (records_in as_headed (within s words.now))) result }
{
    records_pass(words, ix, unpaired, held, s.of(words))
}
