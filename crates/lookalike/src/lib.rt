// Refusal 14, the look-alike test: whether a text is confusable.
#![tactic(auto)]

ghost use Rattle.std.specs.Prelude.{◌≡◌, true, false, replicate};
ghost use Rattle.std.specs.Bool.{beq};
ghost use Rattle.lists.specs.Lists.{any};
ghost use Rattle.sections.specs.Laid.{Laid};
ghost use Rattle.table.specs.Layout.{the_table, most_groups};
ghost use Rattle.table.specs.Lookup.{holds};
ghost use Rattle.confusable.specs.Confusable as definition;
ghost use Rattle.confused_set.specs.Filter.{Filter};
ghost use Rattle.lookalike.specs.Respelling.{KeptWhere, may_respell, Narrowed, RespellingsBy};
ghost use Rattle.memo.specs.Memo.{Memo};

use confused_set::{FILTER_WORDS, make_filter, whole_by};
use group_flags::{Flag, any_set, flag_holders, keep_outside, keep_where};
use memo::recall;
use sections::Sections;
use table::WholeLists;

// The most characters of a text that is looked at first, before any component is found.
const LOOKED: usize = 64;

// The most words of the wholes where it is: each character costs a walk over them.
const FEW_WHOLES: usize = 8192;

// Keeps the flags of the groups that hold c, or of those that do not, as `held` says.
fn keep_holding<F: Flag>(words: &[u32], ix: Sections, flags: &mut [F; 256], c: u32, held: bool)
    requires { Laid words.now ix }
    ensures { KeptWhere (F.of false) (the_table words.now) (λ g. beq (holds g c) held) flags.old flags.new }
{
    let mut holders = [false; 256];
    flag_holders(words, ix, &mut holders, c);
    keep_where(flags, |i| holders[i] == held);
}

// Keeps the flags of the groups that may spell c otherwise, as far as can be told without a component: a group that holds a confused character
// never does.
fn rule_out(
    words: &[u32],
    ix: Sections,
    filter: &[u32; FILTER_WORDS],
    flags: &mut [bool; 256],
    c: u32,
)
    requires laid { Laid words.now ix }
    requires filter { Filter (the_table words.now).wholes filter.now }
    ensures { KeptWhere false (the_table words.now) (λ g. may_respell (the_table words.now) g c) flags.old flags.new }
{
    let confused = is_confused(words, ix, filter, c);
    keep_holding(words, ix, flags, c, !confused);
}

// Whether it shows without a component that no group can spell the text otherwise. Where it answers false nothing is said.
fn ruled_out(words: &[u32], ix: Sections, filter: &[u32; FILTER_WORDS], text: &[u32]) -> bool
    requires laid { Laid words.now ix }
    requires filter { Filter (the_table words.now).wholes filter.now }
    ensures { result ≡ true → definition.confusable (the_table words.now) text.now ≡ false }
{
    let mut flags = [true; 256];
    for &c in text {
        rule_out(words, ix, filter, &mut flags, c);
        if !any_set(&flags) {
            return true;
        }
    }
    false
}

// Whether a text has a confused character.
fn any_confused(words: &[u32], ix: Sections, filter: &[u32; FILTER_WORDS], text: &[u32]) -> bool
    requires laid { Laid words.now ix }
    requires filter { Filter (the_table words.now).wholes filter.now }
    ensures { result ≡ any (definition.is_confused (the_table words.now)) text.now }
{
    text.iter().any(|&c| is_confused(words, ix, filter, c))
}

// Whether c is confused.
fn is_confused(words: &[u32], ix: Sections, filter: &[u32; FILTER_WORDS], c: u32) -> bool
    requires laid { Laid words.now ix }
    requires filter { Filter (the_table words.now).wholes filter.now }
    ensures { result ≡ definition.is_confused (the_table words.now) c }
{
    whole_by(words, ix, filter, c).is_some()
}

// Whether a text of few characters shows without a component that it is not confusable: none of them is confused, or every group is ruled out. Of
// one character alone nothing is gained, nor where the wholes are many or the groups are walked.
fn looks_plain(words: &[u32], ix: Sections, filter: &[u32; FILTER_WORDS], text: &[u32]) -> bool
    requires laid { Laid words.now ix }
    requires filter { Filter (the_table words.now).wholes filter.now }
    ensures { result ≡ true → definition.confusable (the_table words.now) text.now ≡ false }
{
    if text.len() < 2 || LOOKED < text.len() {
        return false;
    }
    let wholes = ix.wholes;
    let sorted = ix.sorted;
    if !sorted.groups || FEW_WHOLES < wholes.to - wholes.from {
        return false;
    }
    !any_confused(words, ix, filter, text) || ruled_out(words, ix, filter, text)
}

// Keeps the flags of the groups that can spell c otherwise: hold it, or, where it is confused, hold a member of its whole
// outside its extent. Answers whether c is confused.
fn narrow<F: Flag>(
    words: &[u32],
    ix: Sections,
    filter: &[u32; FILTER_WORDS],
    memo: &mut [u32],
    flags: &mut [F; 256],
    c: u32,
) -> bool
    requires laid { Laid words.now ix }
    requires filter { Filter (the_table words.now).wholes filter.now }
    requires memo { Memo words.now memo.old }
    ensures narrowed { Narrowed F.of (the_table words.now) c flags.old flags.new result }
    ensures memo_2 { Memo words.now memo.new }
{
    let whole = whole_by(words, ix, filter, c);
    match whole {
        Some(WholeLists { valid, confused }) => {
            let j = recall(words, ix, memo, valid, confused);
            let from = 260 * j + 4;
            let to = 260 * j + 260;
            keep_outside(words, ix, flags, &memo[from..to], c);
            true
        }
        None => {
            keep_holding(words, ix, flags, c, true);
            false
        }
    }
}

// Keeps, of flags that are all set, those of the groups that can spell each character of the text otherwise, by a filter. Answers whether the text
// has a confused character.
fn respellings_by<F: Flag>(
    words: &[u32],
    ix: Sections,
    filter: &[u32; FILTER_WORDS],
    text: &[u32],
    memo: &mut [u32],
    flags: &mut [F; 256],
) -> bool
    requires laid { Laid words.now ix }
    requires filter { Filter (the_table words.now).wholes filter.now }
    requires memo { Memo words.now memo.old }
    requires flags_value { flags.old ≡ replicate most_groups (F.of true) }
    ensures respellings { RespellingsBy F.of (the_table words.now) text.now flags.new result }
    ensures memo_2 { Memo words.now memo.new }
{
    let mut seen = false;
    for &c in text {
        seen |= narrow(words, ix, filter, memo, flags, c);
    }
    seen
}

// The same without a filter, which is made.
pub fn respellings<F: Flag>(
    words: &[u32],
    ix: Sections,
    text: &[u32],
    memo: &mut [u32],
    flags: &mut [F; 256],
) -> bool
    requires laid { Laid words.now ix }
    requires memo { Memo words.now memo.old }
    requires flags_value { flags.old ≡ replicate most_groups (F.of true) }
    ensures respellings { RespellingsBy F.of (the_table words.now) text.now flags.new result }
    ensures memo_2 { Memo words.now memo.new }
{
    let mut filter = [0xFFFFFFFF; FILTER_WORDS];
    make_filter(words, ix, &mut filter, text.len());
    respellings_by(words, ix, &filter, text, memo, flags)
}

// Whether a text is confusable: it has a confused character, and some group can spell each of its characters otherwise.
pub fn confusable(words: &[u32], ix: Sections, text: &[u32], memo: &mut [u32]) -> bool
    requires laid { Laid words.now ix }
    requires memo { Memo words.now memo.old }
    ensures value { result ≡ definition.confusable (the_table words.now) text.now }
    ensures memo_2 { Memo words.now memo.new }
{
    let mut filter = [0xFFFFFFFF; FILTER_WORDS];
    make_filter(words, ix, &mut filter, text.len());
    if looks_plain(words, ix, &filter, text) {
        return false;
    }
    let mut flags = [true; 256];
    let seen = respellings_by(words, ix, &filter, text, memo, &mut flags);
    seen && any_set(&flags)
}
