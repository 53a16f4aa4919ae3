// What rules 7 and 8 ask of the second item of a composition pair.
#![tactic(auto)]

use quick_filters::filters::may_hold;
use sections::Sections;
use sections::lookup::{decomposition_items, in_quick_check};
use text::hangul::{is_jamo, is_syllable};

// So often a codepoint is asked for among the heads that may be one by the filter.
const MOST_ASKED: u32 = 64;

ghost use Rattle.std.specs.Prelude.{◌≡◌, true, false};
ghost use Rattle.sections.specs.Laid.{Laid};
ghost use Rattle.table.specs.Layout.{the_table};
ghost use Rattle.quick_local.specs.Local.{is_head};
ghost use Rattle.quick_seconds.specs.Seconds.{HeadsHeld, Good, HeadAsked, SecondAsked};

// Whether no decomposition has the head c.
fn has_no_record(words: &[u32], ix: Sections, c: u32) -> bool
    requires { Laid words.now ix }
    ensures { result ≡ true → is_head (the_table words.now) c ≡ false }
{
    decomposition_items(words, ix, c).is_none()
}

// Whether b is found to be no head. Where the filter cannot tell, the section is asked, so often in all as the last word of `good` allows.
fn is_no_head(words: &[u32], ix: Sections, heads: &[u32], good: &mut [u32], b: u32) -> bool
    requires laid { Laid words.now ix × HeadsHeld (the_table words.now) heads.now }
    requires good { Good (the_table words.now) good.old }
    ensures { HeadAsked (the_table words.now) good.new b result }
{
    if !may_hold(heads, b) {
        return true;
    }
    let asked = good[256];
    if MOST_ASKED <= asked {
        return false;
    }
    good[256] = asked + 1;
    has_no_record(words, ix, b)
}

// Whether b may be the second item of a composition pair.
fn fits_anew(words: &[u32], ix: Sections, heads: &[u32], good: &mut [u32], b: u32) -> bool
    requires laid { Laid words.now ix × HeadsHeld (the_table words.now) heads.now }
    requires good { Good (the_table words.now) good.old }
    ensures { SecondAsked (the_table words.now) good.new b result }
{
    if is_syllable(b) {
        return false;
    }
    if is_jamo(b) {
        return false;
    }
    if !in_quick_check(words, ix, b) {
        return false;
    }
    is_no_head(words, ix, heads, good, b)
}

// The same; one that fits is kept in `good`.
pub fn second_fits(words: &[u32], ix: Sections, heads: &[u32], good: &mut [u32], b: u32) -> bool
    requires laid { Laid words.now ix × HeadsHeld (the_table words.now) heads.now }
    requires good { Good (the_table words.now) good.old }
    ensures { SecondAsked (the_table words.now) good.new b result }
{
    let i = (b % 256) as usize;
    if b == 0 {
        return false;
    }
    if good[i] == b {
        return true;
    }
    if !fits_anew(words, ix, heads, good, b) {
        return false;
    }
    good[i] = b;
    true
}
