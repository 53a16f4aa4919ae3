// The records of a part, one after another, up to the first that does not stand there whole.
#![tactic(auto)]

ghost use Rattle.std.specs.Prelude.{◌≡◌, true, length};
ghost use Rattle.std.specs.Iterator.{YieldsFirstBy, item_count};
ghost use Rattle.std.specs.Option.{MatchOption};
ghost use Rattle.lists.specs.Lists.{is_some};
ghost use Rattle.table.specs.Layout.{most_items, headed, sequences, wholes};
ghost use Rattle.table.specs.Part.{records_in, heads_in, wholes_in};
ghost use Rattle.records.specs.Left.{Counted, NoneCounted, head_of, items_of, whole_of, heads_left, lists_left, wholes_left};

// The items behind the count that the words begin with, and the words behind the items, where that many follow.
fn counted(words: &[u32]) -> Option<(&[u32], &[u32])>
    ensures { MatchOption result (NoneCounted words.now) (λ x. Counted words.now x.0.now x.1.now) }
{
    let (count, behind) = words.split_first()?;
    behind.split_at_checked(*count as usize)
}

// Records head, count, items: `part` is the words of those that are left.
#[derive(Drop)]
pub struct Heads<'a> {
    pub part: &'a [u32],
}

impl<'a> Heads<'a> {
    pub fn of(part: &'a [u32]) -> Heads<'a>
        ensures left { heads_left result.part.now ≡ heads_left part.now }
        ensures all { is_some (headed (length part.now) most_items part.now) ≡ true → heads_left result.part.now ≡ heads_in part.now }
    {
        Heads { part }
    }
}

impl<'a> Iterator for Heads<'a> {
    type Item = (u32, &'a [u32]);

    ghost next_gives = { YieldsFirstBy head_of (λ s. heads_left s.part.now) };

    ghost remaining = { item_count (λ s. heads_left s.part.now) };

    fn next(&mut self) -> Option<(u32, &'a [u32])> {
        let (head, behind) = self.part.split_first()?;
        let (items, part) = counted(behind)?;
        self.part = part;
        Some((*head, items))
    }
}

// Records count, items.
#[derive(Drop)]
pub struct Lists<'a> {
    pub part: &'a [u32],
}

impl<'a> Lists<'a> {
    pub fn of(part: &'a [u32]) -> Lists<'a>
        ensures left { lists_left result.part.now ≡ lists_left part.now }
        ensures all { is_some (sequences (length part.now) part.now) ≡ true → lists_left result.part.now ≡ records_in sequences part.now }
    {
        Lists { part }
    }
}

impl<'a> Iterator for Lists<'a> {
    type Item = &'a [u32];

    ghost next_gives = { YieldsFirstBy items_of (λ s. lists_left s.part.now) };

    ghost remaining = { item_count (λ s. lists_left s.part.now) };

    fn next(&mut self) -> Option<&'a [u32]> {
        let (items, part) = counted(self.part)?;
        self.part = part;
        Some(items)
    }
}

// Records valid count, items, confused count, items.
#[derive(Drop)]
pub struct Wholes<'a> {
    pub part: &'a [u32],
}

impl<'a> Wholes<'a> {
    pub fn of(part: &'a [u32]) -> Wholes<'a>
        ensures left { wholes_left result.part.now ≡ wholes_left part.now }
        ensures all { is_some (wholes (length part.now) part.now) ≡ true → wholes_left result.part.now ≡ wholes_in part.now }
    {
        Wholes { part }
    }
}

impl<'a> Iterator for Wholes<'a> {
    type Item = (&'a [u32], &'a [u32]);

    ghost next_gives = { YieldsFirstBy whole_of (λ s. wholes_left s.part.now) };

    ghost remaining = { item_count (λ s. wholes_left s.part.now) };

    fn next(&mut self) -> Option<(&'a [u32], &'a [u32])> {
        let (valid, behind) = counted(self.part)?;
        let (confused, part) = counted(behind)?;
        self.part = part;
        Some((valid, confused))
    }
}
