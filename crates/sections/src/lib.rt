// The places of the sections among the words of a table, and lookups by them.
#![tactic(auto)]

pub mod lookup;

use place_marks::Marks;
use table::Span;

// Which sections were found to be sorted. 02, Item 11: "which sections are sorted without overlap". To a lookup a flag may be false where it is
// so, and is never true where it is not; the layout pass finds each that is.
#[derive(Clone, Copy)]
pub struct Sorted {
    pub valid: bool,
    pub ignored: bool,
    pub fenced: bool,
    pub marks: bool,
    pub nsm: bool,
    pub mapped: bool,
    pub decompositions: bool,
    pub emoji: bool,
    pub exclusions: bool,
    pub classes: bool,
    pub groups: bool,
    pub escape: bool,
    pub quick: bool,
}

// Places of records from which a search may start, in the sections whose records differ in length; and the numbers of the emoji at theirs.
#[derive(Clone, Copy)]
pub struct Starts {
    pub mapped: Marks,
    pub decompositions: Marks,
    pub emoji: Marks,
    pub numbers: Marks,
}

// Where the sections stand among the words of a table, without the counts that lead them; and what the layout pass found of them: which are
// sorted, and where a search may start.
#[derive(Clone, Copy)]
pub struct Sections {
    pub valid: Span,
    pub ignored: Span,
    pub fenced: Span,
    pub marks: Span,
    pub nsm: Span,
    pub mapped: Span,
    pub decompositions: Span,
    pub emoji: Span,
    pub exclusions: Span,
    pub classes: Span,
    pub groups: Span,
    pub wholes: Span,
    pub escape: Span,
    pub quick: Span,
    pub sorted: Sorted,
    pub starts: Starts,
}
