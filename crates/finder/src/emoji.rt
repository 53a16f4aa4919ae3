// Finding an emoji sequence at the start of an input.
ghost use Rattle.std.specs.Prelude.{◌≡◌};
ghost use Rattle.firsts.specs.Firsts.{sequences_in, FirstsKnown};
ghost use Rattle.sections.specs.Laid.{Laid};
ghost use Rattle.table.specs.Layout.{the_table};
ghost use Rattle.finder.specs.Emoji.{takes, selectors_in, find};
ghost use Rattle.finder.specs.Match.{taken_of, match_of, better_of, UncountedBy, FoundBy};

use crate::shared::shared;
use firsts::seek;
use place_marks::Marks;
use sections::Sections;
use table::Span;
use table::lookup::counted;

// A match: the number of the record, where its sequence stands, how many codepoints it takes and how many FE0F are among them.
#[derive(Clone, Copy)]
pub struct Match {
    pub number: usize,
    pub sequence: Span,
    pub taken: usize,
    pub selectors: usize,
}

// A match whose FE0F are not counted yet.
#[derive(Clone, Copy)]
pub struct Uncounted {
    pub number: usize,
    pub sequence: Span,
    pub taken: usize,
}

// How many codepoints the sequence takes from the start of the rest, if it matches there.
pub fn takes(seq: &[u32], rest: &[u32]) -> Option<usize>
    ensures { taken_of rest.now result ≡ takes seq.now rest.now }
{
    let start = shared(seq, rest);
    let mut at = start;
    for i in start..seq.len() {
        let e = seq[i];
        if at < rest.len() && rest[at] == e {
            at += 1;
            continue;
        }
        if e != 0xFE0F {
            return None;
        }
    }
    Some(at)
}

// The match of a record that takes so much: "A match takes at least one codepoint."
fn matched(number: usize, sequence: Span, taking: Option<usize>) -> Option<Uncounted>
    ensures { result ≡ match_of number sequence taking }
{
    let taken = taking?;
    if taken == 0 {
        return None;
    }
    Some(Uncounted {
        number,
        sequence,
        taken,
    })
}

// Of two matches the one that takes more, and of equals the first.
fn better(a: Option<Uncounted>, b: Option<Uncounted>) -> Option<Uncounted>
    ensures { result ≡ better_of a b }
{
    match (a, b) {
        (Some(f), Some(g)) if f.taken < g.taken => b,
        _ => a.or(b),
    }
}

// The match of the sequences of a section that takes most of the rest, "ties go to the first record". Most records are passed over by
// their first codepoint. Where the section is sorted, the search starts at the first record that can match, and ends behind the last.
fn find_in(
    part: &[u32],
    sorted: bool,
    places: Marks,
    numbers: Marks,
    rest: &[u32],
) -> Option<Uncounted>
    requires { FirstsKnown part.now sorted places numbers }
    ensures { UncountedBy part.now rest.now (find (sequences_in part.now) rest.now) result }
{
    let mut best = None;
    let Some(&e) = rest.first() else {
        return None;
    };
    let start = seek(part, sorted, places, numbers, e);
    let mut number = start.number;
    let mut at = start.place;
    // by hand: a record's length is its own, and the place goes on by it
    while at < part.len() {
        let first = part[at + 1];
        if sorted & (e < first) {
            return best;
        }
        let sequence = counted(part, at);
        if (first == e) | (first == 0xFE0F) {
            let taking = takes(sequence.of(part), rest);
            let next = matched(number, sequence, taking);
            best = better(best, next);
        }
        number += 1;
        at = sequence.to;
    }
    best
}

// The number of FE0F of a text.
fn selectors_in(text: &[u32]) -> usize
    ensures { result ≡ selectors_in text.now }
{
    text.iter().filter(|&&c| c == 0xFE0F).count()
}

// The emoji sequence of the table that matches the rest of a label and takes most of it.
pub fn find(words: &[u32], ix: Sections, rest: &[u32]) -> Option<Match>
    requires { Laid words.now ix }
    ensures { FoundBy words.now rest.now (find (the_table words.now).emoji rest.now) result }
{
    let s = ix.emoji;
    let sorted = ix.sorted;
    let starts = ix.starts;
    let m = find_in(
        s.of(words),
        sorted.emoji,
        starts.emoji,
        starts.numbers,
        rest,
    )?;
    Some(Match {
        number: m.number,
        sequence: Span {
            from: s.from + m.sequence.from,
            to: s.from + m.sequence.to,
        },
        taken: m.taken,
        selectors: selectors_in(&rest[..m.taken]),
    })
}
