// Rule 8, on the quick-check set.

ghost use Rattle.std.specs.Prelude.{◌≡◌};
ghost use Rattle.sections.specs.Laid.{Laid};
ghost use Rattle.table.specs.Layout.{the_table};
ghost use Rattle.soundness.specs.QuickCheck.{rule8};

use passing::{run_passes, syllables_pass};
use passing_records::records_pass_of;
use second_items::seconds_held_of;
use sections::Sections;
use unpaired::KNOWN_WORDS;
use unpaired::index::index_pairs;

// Rule 8: the set is empty, or holds every codepoint that isn't its own NFC and every one whose full decomposition starts with the second item
// of a composition pair, Hangul included. Vowels and trailing consonants are second items, and are asked first.
pub fn keeps_rule8(words: &[u32], ix: Sections) -> bool
    requires { Laid words.now ix }
    ensures { result ≡ rule8 (the_table words.now) }
{
    let set = ix.quick;
    if set.from == set.to {
        return true;
    }
    let held = seconds_held_of(words, ix, ix.decompositions);
    let mut unpaired = [0u32; KNOWN_WORDS];
    index_pairs(words, ix, &mut unpaired);
    if !run_passes(words, ix, &mut unpaired, held, 0x1161, 0x1176) {
        return false;
    }
    if !run_passes(words, ix, &mut unpaired, held, 0x11A8, 0x11C3) {
        return false;
    }
    if !syllables_pass(words, ix, &mut unpaired, held) {
        return false;
    }
    records_pass_of(words, ix, &mut unpaired, held, ix.decompositions)
}
