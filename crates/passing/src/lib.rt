// Whether a codepoint passes rule 8, and whether those of a run and the syllables do.
#![tactic(auto)]

ghost use Rattle.std.specs.Prelude.{◌≡◌, ◌≤◌, ◌<◌, ◌+◌, ◌-◌, length};
ghost use Rattle.lists.specs.Lists.{all};
ghost use Rattle.sections.specs.Laid.{Laid};
ghost use Rattle.table.specs.Layout.{the_table};
ghost use Rattle.soundness.specs.Valid.{counted_from};
ghost use Rattle.soundness.specs.QuickCheck.{passes8, second_syllables};
ghost use Rattle.soundness.specs.Concerned.{leading_passes};
ghost use Rattle.unpaired.specs.Unpaired.{Unpaired, Asked};
ghost use Rattle.second_items.specs.Seconds.{SecondsHeld};
ghost use Rattle.passing.specs.Passing.{composes_to};

use composition::compose::compose;
use composition::nfc::put_classes;
use decomposition::append_decomposed;
use second_items::is_second;
use sections::Sections;
use sections::lookup::in_quick_check;

// Whether decomposed text, put in order, starts with no second item and is composed to c alone. `classes` is as long as the text, whatever
// stands in it.
fn composes_to(
    words: &[u32],
    ix: Sections,
    unpaired: &mut [u32],
    held: bool,
    text: &mut [u32],
    classes: &mut [u32],
    c: u32,
) -> bool
    requires laid { Laid words.now ix }
    requires unpaired { Unpaired (the_table words.now) unpaired.old }
    requires seconds_held { SecondsHeld (the_table words.now) held }
    requires in_bounds { (1 ≤ length text.old) × (length text.old ≡ length classes.old) }
    ensures { Asked (the_table words.now) unpaired.new (composes_to (the_table words.now) text.old c) result }
{
    put_classes(words, ix, text, classes);
    ordering::order(text, classes);
    if is_second(words, ix, held, text[0]) {
        return false;
    }
    let left = compose(words, ix, unpaired, text, classes);
    if left != 1 {
        return false;
    }
    text[0] == c
}

// Whether c is in the set, or is its own NFC and its full decomposition starts with no second item.
pub fn passes(words: &[u32], ix: Sections, unpaired: &mut [u32], held: bool, c: u32) -> bool
    requires laid { Laid words.now ix }
    requires unpaired { Unpaired (the_table words.now) unpaired.old }
    requires seconds_held { SecondsHeld (the_table words.now) held }
    ensures { Asked (the_table words.now) unpaired.new (passes8 (the_table words.now) c) result }
{
    if in_quick_check(words, ix, c) {
        return true;
    }
    let mut text = [0u32; 256];
    let mut classes = [0u32; 256];
    let n = append_decomposed(words, ix, &mut text, 0, c);
    composes_to(
        words,
        ix,
        unpaired,
        held,
        &mut text[..n],
        &mut classes[..n],
        c,
    )
}

// Whether the codepoints from `from` up to `to`, without it, pass.
pub fn run_passes(
    words: &[u32],
    ix: Sections,
    unpaired: &mut [u32],
    held: bool,
    from: u32,
    to: u32,
) -> bool
    requires laid { Laid words.now ix }
    requires unpaired { Unpaired (the_table words.now) unpaired.old }
    requires seconds_held { SecondsHeld (the_table words.now) held }
    ensures { Asked (the_table words.now) unpaired.new (all (passes8 (the_table words.now)) (counted_from from (to - from))) result }
{
    for c in from..to {
        if !passes(words, ix, unpaired, held, c) {
            return false;
        }
    }
    true
}

// Whether the syllables of the leading consonant with this number, counted from 0, pass, if it is a second item.
fn leading_passes(words: &[u32], ix: Sections, unpaired: &mut [u32], held: bool, l: u32) -> bool
    requires laid { Laid words.now ix }
    requires unpaired { Unpaired (the_table words.now) unpaired.old }
    requires seconds_held { SecondsHeld (the_table words.now) held }
    requires l_bound { l < 19 }
    ensures { Asked (the_table words.now) unpaired.new (leading_passes (the_table words.now) (0x1100 + l)) result }
{
    if !is_second(words, ix, held, 0x1100 + l) {
        return true;
    }
    let from = 0xAC00 + l * 588;
    run_passes(words, ix, unpaired, held, from, from + 588)
}

// Whether the syllables pass whose leading consonant is a second item.
pub fn syllables_pass(words: &[u32], ix: Sections, unpaired: &mut [u32], held: bool) -> bool
    requires laid { Laid words.now ix }
    requires unpaired { Unpaired (the_table words.now) unpaired.old }
    requires seconds_held { SecondsHeld (the_table words.now) held }
    ensures { Asked (the_table words.now) unpaired.new (all (passes8 (the_table words.now)) (second_syllables (the_table words.now))) result }
{
    for l in 0..19 {
        if !leading_passes(words, ix, unpaired, held, l) {
            return false;
        }
    }
    true
}
