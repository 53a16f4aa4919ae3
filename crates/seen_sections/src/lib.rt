// What is seen of all sections of a table, and what the layout pass hands on of it.
#![tactic(auto)]

ghost use Rattle.std.specs.Prelude.{◌≡◌};
ghost use Rattle.seen_sections.specs.Found.{all_fit, sorted_of, starts_of, found_of};

use group_sizes::Seen;
use sections::{Sections, Sorted, Starts};
use seen_parts::{FirstsSeen, HeadsSeen};

// What is seen of the sections of pairs.
#[derive(Clone, Copy)]
pub struct Sets {
    pub valid: Seen,
    pub ignored: Seen,
    pub fenced: Seen,
    pub marks: Seen,
    pub nsm: Seen,
    pub escape: Seen,
    pub quick: Seen,
}

// What is seen of the others.
#[derive(Clone, Copy)]
pub struct Others {
    pub mapped: HeadsSeen,
    pub decompositions: HeadsSeen,
    pub emoji: FirstsSeen,
    pub exclusions: Seen,
    pub classes: Seen,
    pub groups: Seen,
    pub wholes: bool,
}

// Whether every section is well formed.
pub fn all_fit(s: Sets, o: Others) -> bool
    ensures { result ≡ all_fit s o }
{
    let marks = s.valid.fits & s.ignored.fits & s.fenced.fits & s.marks.fits & s.nsm.fits;
    let records = o.mapped.fits
        & o.decompositions.fits
        & o.emoji.fits
        & o.exclusions.fits
        & o.classes.fits;
    marks & records & o.groups.fits & o.wholes & s.escape.fits & s.quick.fits
}

// Which of them are sorted.
fn sorted_of(s: Sets, o: Others) -> Sorted
    ensures { result ≡ sorted_of s o }
{
    Sorted {
        valid: s.valid.sorted,
        ignored: s.ignored.sorted,
        fenced: s.fenced.sorted,
        marks: s.marks.sorted,
        nsm: s.nsm.sorted,
        mapped: o.mapped.sorted,
        decompositions: o.decompositions.sorted,
        emoji: o.emoji.sorted,
        exclusions: o.exclusions.sorted,
        classes: o.classes.sorted,
        groups: o.groups.sorted,
        escape: s.escape.sorted,
        quick: s.quick.sorted,
    }
}

// Where a search may start.
fn starts_of(o: Others) -> Starts
    ensures { result ≡ starts_of o }
{
    Starts {
        mapped: o.mapped.marks,
        decompositions: o.decompositions.marks,
        emoji: o.emoji.places,
        numbers: o.emoji.numbers,
    }
}

// The places, with what is found.
pub fn found_of(ix: Sections, s: Sets, o: Others) -> Sections
    ensures { result ≡ found_of ix s o }
{
    Sections {
        sorted: sorted_of(s, o),
        starts: starts_of(o),
        ..ix
    }
}
