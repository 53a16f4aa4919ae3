// Rules 6 to 8 found to hold in a few steps a word, or not found. 02, Item 11: "The fast path is taken only where the set isn't empty and that
// pass found rules 6 to 8 to hold".
#![tactic(auto)]

ghost use Rattle.std.specs.Prelude.{◌≡◌, true, ◌≤◌};
ghost use Rattle.sections.specs.Laid.{Laid};
ghost use Rattle.table.specs.Layout.{the_table};
ghost use Rattle.heads.specs.Heads.{rising};
ghost use Rattle.quick_local.specs.Local.{Local};
ghost use Rattle.quick_records.specs.Fit.{PartOf, SetOf, Looked, JamoHeld, Decomposed};

use quick_levels::{items_once, note_heads, stand_in_levels};
use quick_records::{covers_run, records_fit};
use sections::Sections;
use sound_parts::spared::classes_spare_of;

// The longest section of decompositions that is looked at.
const MOST_LOOKED: usize = 16384;

// Whether the sections are sorted and not too long, and the set isn't empty. Those that a scan of a label asks are to be sorted too: a label that
// does not turn out to be left as it is until late is scanned twice, and only by halves that costs little beside the rest.
fn may_look(ix: Sections) -> bool
    requires { ix.decompositions.from ≤ ix.decompositions.to }
    ensures { result ≡ true → Looked ix }
{
    let sorted = ix.sorted;
    if !(sorted.decompositions & sorted.classes & sorted.exclusions & sorted.quick) {
        return false;
    }
    if !(sorted.valid & sorted.ignored & sorted.mapped & sorted.emoji) {
        return false;
    }
    if ix.quick.to <= ix.quick.from {
        return false;
    }
    ix.decompositions.to - ix.decompositions.from <= MOST_LOOKED
}

// Whether what is asked of decompositions holds.
fn decompositions_fit(words: &[u32], ix: Sections, part: &[u32], set: &[u32]) -> bool
    requires laid { Laid words.now ix × PartOf (the_table words.now) part.now }
    requires words_value { (rising 0 (the_table words.now).decompositions ≡ true) × SetOf (the_table words.now) set.now }
    ensures { result ≡ true → Decomposed (the_table words.now) }
{
    let mut heads = [0u32; 1024];
    if !note_heads(part, &mut heads) {
        return false;
    }
    if !stand_in_levels(part, &heads) {
        return false;
    }
    if !items_once(part) {
        return false;
    }
    records_fit(words, ix, part, set, &heads)
}

// Whether every V and every T jamo is in the set.
fn holds_jamo(set: &[u32]) -> bool
    ensures { result ≡ true → JamoHeld set.now }
{
    if !covers_run(set, 0x1161, 0x1175) {
        return false;
    }
    covers_run(set, 0x11A8, 0x11C2)
}

// Whether what is asked of the set and the decompositions holds.
fn sections_fit(words: &[u32], ix: Sections, part: &[u32], set: &[u32]) -> bool
    requires laid { Laid words.now ix × PartOf (the_table words.now) part.now }
    requires words_value { (rising 0 (the_table words.now).decompositions ≡ true) × SetOf (the_table words.now) set.now }
    ensures { result ≡ true → JamoHeld set.now × Decomposed (the_table words.now) }
{
    if !holds_jamo(set) {
        return false;
    }
    decompositions_fit(words, ix, part, set)
}

// Whether rules 6 to 8 are found to hold and the set isn't empty. They may hold where they are not found.
pub fn finds(words: &[u32], ix: Sections) -> bool
    requires { Laid words.now ix }
    ensures { result ≡ true → Local (the_table words.now) }
{
    if !may_look(ix) {
        return false;
    }
    if !classes_spare_of(words, ix.classes) {
        return false;
    }
    sections_fit(words, ix, ix.decompositions.of(words), ix.quick.of(words))
}
