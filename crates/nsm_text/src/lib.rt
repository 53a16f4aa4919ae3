// Refusal 13: the runs of nonspacing marks (NSM) in the full decomposition of a text, which is read once and held nowhere.
#![tactic(auto)]

ghost use Rattle.std.specs.Prelude.{◌≡◌, replicate};
ghost use Rattle.sections.specs.Laid.{Laid};
ghost use Rattle.table.specs.Layout.{the_table};
ghost use Rattle.text.specs.Decomposition.{four_rounds};
ghost use Rattle.nsm.specs.Marks.{nsm_fits};
ghost use Rattle.nsm_rows.specs.Rows.{Sized};
ghost use Rattle.nsm_rows.specs.Reading.{Taken};

use buffers::wipe;
use nsm_rows::rows::pour_all;
use nsm_rows::runs::take_rounds;
use sections::Sections;

// Takes the four rounds of each codepoint of the text.
fn take_text(words: &[u32], ix: Sections, w: &mut [u32], text: &[u32]) -> bool
    requires laid { Laid words.now ix }
    requires sized { Sized w.old }
    ensures { Taken (the_table words.now) w.old w.new (four_rounds (the_table words.now) text.now) result }
{
    for &c in text {
        if !take_rounds(words, ix, w, c, 4) {
            return false;
        }
    }
    true
}

// Whether in every run of NSM in the full decomposition of the text all are different and there are at most four. The rows are empty.
fn runs_fit(words: &[u32], ix: Sections, w: &mut [u32], text: &[u32]) -> bool
    requires laid { Laid words.now ix }
    requires w_value { w.old ≡ replicate 2816 0 }
    ensures { result ≡ nsm_fits (the_table words.now) text.now }
{
    if !take_text(words, ix, w, text) {
        return false;
    }
    pour_all(w)
}

// The same, with rows that hold NSM of the text and so are wiped in the end.
pub fn nsm_fits(words: &[u32], ix: Sections, text: &[u32]) -> bool
    requires { Laid words.now ix }
    ensures { result ≡ nsm_fits (the_table words.now) text.now }
{
    let mut w: [u32; 2816] = [0; 2816];
    let fits = runs_fit(words, ix, &mut w, text);
    if !wipe(&mut w, text.len()) {
        return false;
    }
    fits
}
