// The places of the fourteen sections among the words of a table.
#![tactic(auto)]

ghost use Rattle.std.specs.Prelude.{◌≡◌};
ghost use Rattle.sections.specs.Known.{none_sorted, no_starts};
ghost use Rattle.sections.specs.Laid.{span_at, sections_of};

use place_marks::no_marks;
use sections::{Sections, Sorted, Starts};
use table::Span;

// The section whose count stands at `at`; where there is none, an empty one past the end of the words.
fn span_at(words: &[u32], at: usize) -> Span
    ensures { result ≡ span_at words.now at }
{
    if at < words.len() {
        let n = words[at] as usize;
        if n < words.len() - at {
            let from = at + 1;
            return Span { from, to: from + n };
        }
    }
    let past = words.len() + 1;
    Span {
        from: past,
        to: past,
    }
}

// Nothing is found yet.
fn none_sorted() -> Sorted
    ensures { result ≡ none_sorted }
{
    Sorted {
        valid: false,
        ignored: false,
        fenced: false,
        marks: false,
        nsm: false,
        mapped: false,
        decompositions: false,
        emoji: false,
        exclusions: false,
        classes: false,
        groups: false,
        escape: false,
        quick: false,
    }
}

fn no_starts() -> Starts
    ensures { result ≡ no_starts }
{
    let none = no_marks();
    Starts {
        mapped: none,
        decompositions: none,
        emoji: none,
        numbers: none,
    }
}

// The places of the sections, one behind the other.
pub fn places(words: &[u32]) -> Sections
    ensures { result ≡ sections_of words.now }
{
    let valid = span_at(words, 0);
    let ignored = span_at(words, valid.to);
    let fenced = span_at(words, ignored.to);
    let marks = span_at(words, fenced.to);
    let nsm = span_at(words, marks.to);
    let mapped = span_at(words, nsm.to);
    let decompositions = span_at(words, mapped.to);
    let emoji = span_at(words, decompositions.to);
    let exclusions = span_at(words, emoji.to);
    let classes = span_at(words, exclusions.to);
    let groups = span_at(words, classes.to);
    let wholes = span_at(words, groups.to);
    let escape = span_at(words, wholes.to);
    let quick = span_at(words, escape.to);
    let sorted = none_sorted();
    let starts = no_starts();
    Sections {
        valid,
        ignored,
        fenced,
        marks,
        nsm,
        mapped,
        decompositions,
        emoji,
        exclusions,
        classes,
        groups,
        wholes,
        escape,
        quick,
        sorted,
        starts,
    }
}
