// Refusals 8 to 11: how a label is spelled.
#![tactic(auto)]

ghost use Rattle.std.specs.Prelude.{◌≡◌, ◌≤◌, length};
ghost use Rattle.limits.specs.Limits.{least_work, most_worked};
ghost use Rattle.sections.specs.Laid.{Laid};
ghost use Rattle.table.specs.Layout.{the_table};
ghost use Rattle.spelling.specs.Spelling as spelling;
ghost use Rattle.spelling.specs.CellTags.{leading_at, codes_in, tags_in};

use limits::MOST_WORKED;
use sections::Sections;
use sections::lookup::{is_fenced, is_mark};
use table::lookup::mem_in;

// 8: a low line stands after a character that isn't one.
pub fn low_line(s: &[u32]) -> bool
    ensures { result ≡ spelling.low_line s.now }
{
    for (i, &c) in s.iter().enumerate() {
        if c != 0x5F {
            return mem_in(&s[i..], 0x5F);
        }
    }
    false
}

// 9: the 3rd and 4th character are both 2D.
pub fn hyphens(s: &[u32]) -> bool
    ensures { result ≡ spelling.hyphens s.now }
{
    s.len() >= 4 && s[2] == 0x2D && s[3] == 0x2D
}

// Whether every character is below 80 hex.
pub fn all_ascii(s: &[u32]) -> bool
    ensures { result ≡ spelling.all_ascii s.now }
{
    s.iter().all(|&c| c < 0x80)
}

// 10: a fenced character is first, last or beside another. `beside` says that the character before is fenced; nothing counts as
// fenced before the first.
pub fn fenced(words: &[u32], ix: Sections, s: &[u32]) -> bool
    requires { Laid words.now ix }
    ensures { result ≡ spelling.fenced (the_table words.now) s.now }
{
    if s.len() == 0 {
        return false;
    }
    let mut beside = true;
    for &c in s {
        let here = is_fenced(words, ix, c);
        if beside && here {
            return true;
        }
        beside = here;
    }
    beside
}

// 11: a text token starts with a mark. The codepoints stand in front in the work area, their tags from MOST_WORKED on.
pub fn leading_mark(words: &[u32], ix: Sections, w: &[u32], n: usize) -> bool
    requires laid { Laid words.now ix }
    requires least_work_in_bounds { least_work ≤ length w.now }
    requires n_le_most_worked { n ≤ most_worked }
    ensures { result ≡ leading_at (the_table words.now) (codes_in w.now n) (tags_in w.now n) }
{
    let tags = &w[MOST_WORKED..MOST_WORKED + n];
    for (&c, &tag) in w[..n].iter().zip(tags) {
        if tag == 1 && is_mark(words, ix, c) {
            return true;
        }
    }
    false
}
