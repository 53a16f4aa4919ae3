// The screen form of one token (02, Item 1). forms/specs/Forms.antt states what is written, specs/Shows.antt what each function answers.
#![tactic(auto)]

ghost use Rattle.std.specs.Prelude.{◌≡◌, ◌≤◌, length};
ghost use Rattle.limits.specs.Limits.{most_worked, least_work};
ghost use Rattle.sections.specs.Laid.{Laid};
ghost use Rattle.table.specs.Layout.{the_table};
ghost use Rattle.name.specs.Parts.{most_answer};
ghost use Rattle.forms.specs.Forms.{is_greek};
ghost use Rattle.screen_token.specs.Shows.{ShowsText, ShowsToken};

use answers::Kind;
use emoji_record::sequence;
use name::labels::put_label;
use sections::Sections;
use token_walk::Walked;

// Whether a label of this kind is one of the Greek group, which is given by its number.
pub fn is_greek(greek: u32, kind: Kind) -> bool
    ensures { result ≡ is_greek greek kind }
{
    match kind {
        Kind::Emoji | Kind::Ascii => false,
        Kind::Group(g) => g.number == greek as usize,
    }
}

// The first n words as text on the screen outside the Greek group: 3BE is shown as 39E.
fn show_text(w: &mut [u32], n: usize)
    requires { n ≤ length w.old }
    ensures { ShowsText w.old w.new n }
{
    for i in 0..n {
        if w[i] == 0x3BE {
            w[i] = 0x39E;
        }
    }
}

// Writes a token behind the first `at` words of the answer, if there is room, and answers the length with it. The codepoints of a text stand
// in front in the work area.
pub fn put_token(
    words: &[u32],
    ix: Sections,
    greek: bool,
    token: Walked,
    answer: &mut [u32],
    at: usize,
    w: &mut [u32],
) -> usize
    requires laid { Laid words.now ix }
    requires least_work_in_bounds { (least_work ≤ length w.old) × (token.length ≤ most_worked) × (at ≤ most_answer) }
    ensures { ShowsToken (the_table words.now) greek token w.old answer.old answer.new at result }
{
    if let Some(number) = token.extent.emoji {
        let s = sequence(words, ix, number);
        return put_label(answer, at, true, s.of(words));
    }
    let n = token.length;
    if !greek {
        show_text(w, n);
    }
    put_label(answer, at, true, &w[..n])
}
