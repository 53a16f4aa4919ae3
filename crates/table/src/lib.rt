// The name table: lookups over the words of one section.
#![tactic(auto)]

pub mod lookup;

ghost use Rattle.std.specs.Prelude.{◌≡◌};
ghost use Rattle.table.specs.Spans.{Fits, within};

// A section or a part of one: the words from `from` up to, not including, `to`.
#[derive(Clone, Copy)]
pub struct Span {
    pub from: usize,
    pub to: usize,
}

impl Span {
    // The words from `from` up to, not including, `to`.
    pub fn of(self, words: &[u32]) -> &[u32]
        requires { Fits words.now self }
        ensures { result.now ≡ within self words.now }
    {
        &words[self.from..self.to]
    }
}

// Where the lists of a whole stand among the words of a table.
#[derive(Clone, Copy)]
pub struct WholeLists {
    pub valid: Span,
    pub confused: Span,
}

// The record of a group: its flags, where its pairs stand among the words, and the place behind the record. `listed` is whether its flags promise a
// list; `list` is where the records of that list stand, and `None` also where one is promised and the words behind the pairs are none.
#[derive(Clone, Copy)]
pub struct GroupRecord {
    pub restricted: bool,
    pub whitelisted: bool,
    pub pairs: Span,
    pub listed: bool,
    pub list: Option<Span>,
    pub next: usize,
}
