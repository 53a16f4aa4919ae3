// Refusal 16: the compound sequences of a text, each asked for in the list of the text's group.
#![tactic(auto)]

ghost use Rattle.std.specs.Prelude.{◌≡◌, ◌<◌, true, not, ◌||◌, length, MatchOption};
ghost use Rattle.std.proofs.Math.Option.{none};
ghost use Rattle.lists.specs.Lists.{all, is_some};
ghost use Rattle.table.specs.Layout.{sequences, the_table};
ghost use Rattle.table.specs.Part.{records_in};
ghost use Rattle.table.specs.GroupPart.{GroupsPart, groups_in};
ghost use Rattle.sections.specs.Laid.{Laid};
ghost use Rattle.compounds.specs.Compounds.{marks_of, compounds, in_list, compounds_fit, one_fits, list_of};
ghost use Rattle.compounds.specs.ListIs.{ListIs};

use buffers::same;
use records::Lists;
use sections::Sections;
use sections::lookup::is_mark;
use table::lookup::group_at;

// The number of marks that the text begins with.
fn marks_in_front(words: &[u32], ix: Sections, text: &[u32]) -> usize
    requires { Laid words.now ix }
    ensures { result ≡ length (marks_of (the_table words.now) text.now) }
{
    text.iter().take_while(|&&c| is_mark(words, ix, c)).count()
}

// Whether a list has the sequence.
fn in_list(list: &[u32], run: &[u32]) -> bool
    requires { is_some (sequences (length list.now) list.now) ≡ true }
    ensures { result ≡ in_list (records_in sequences list.now) run.now }
{
    Lists::of(list).any(|items| same(run, items))
}

// Whether the list permits a character and the marks behind it.
fn one_fits(words: &[u32], ix: Sections, list: &[u32], run: &[u32]) -> bool
    requires laid { Laid words.now ix × (0 < length run.now) }
    requires list_value { is_some (sequences (length list.now) list.now) ≡ true }
    ensures { result ≡ one_fits (the_table words.now) (records_in sequences list.now) run.now }
{
    if run.len() == 1 {
        return true;
    }
    if is_mark(words, ix, run[0]) {
        return true;
    }
    in_list(list, run)
}

// Whether the list has every compound sequence of the text.
fn all_listed(words: &[u32], ix: Sections, list: &[u32], text: &[u32]) -> bool
    requires laid { Laid words.now ix }
    requires list_value { is_some (sequences (length list.now) list.now) ≡ true }
    ensures { result ≡ all (in_list (records_in sequences list.now)) (compounds (the_table words.now) text.now) }
{
    // by hand: the place goes on behind the marks
    let mut i: usize = 0;
    while i < text.len() {
        let behind = i + 1;
        let next = behind + marks_in_front(words, ix, &text[behind..]);
        if !one_fits(words, ix, list, &text[i..next]) {
            return false;
        }
        i = next;
    }
    true
}

// The records of the list of the group of this number, if it has one.
fn list_in(part: &[u32], number: usize) -> Option<&[u32]>
    requires { GroupsPart part.now }
    ensures { MatchOption result (list_of (groups_in part.now) number ≡ none) (λ list. ListIs list.now (list_of (groups_in part.now) number)) }
{
    // by hand: a record's length is its own, and the place goes on by it
    let mut left = number;
    let mut at: usize = 0;
    while at < part.len() {
        let group = group_at(part, at);
        if left == 0 {
            let list = group.list?;
            return Some(list.of(part));
        }
        left -= 1;
        at = group.next;
    }
    None
}

// Whether the group of this number, where it has a list, permits the text. Only a whitelisted group has one.
pub fn compounds_fit(
    words: &[u32],
    ix: Sections,
    whitelisted: bool,
    number: usize,
    text: &[u32],
) -> bool
    requires { Laid words.now ix }
    ensures { result ≡ (not whitelisted || compounds_fit (the_table words.now) (list_of (the_table words.now).groups number) text.now) }
{
    if !whitelisted {
        return true;
    }
    match list_in(ix.groups.of(words), number) {
        Some(list) => all_listed(words, ix, list, text),
        None => true,
    }
}
