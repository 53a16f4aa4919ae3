// The entries of the slots that a new table would file differently, and their words. specs/Moved.antt states what the call `moved` answers.
#![tactic(auto)]

ghost use Rattle.std.specs.Prelude.{◌≤◌, ◌*◌, ◌≡◌};
ghost use Rattle.book_slots.specs.Book.{slot_count};
ghost use Rattle.refiled.specs.Changes.{change_is};
ghost use Rattle.moved_list.specs.Promise.{moved_number, moved_place};
ghost use Rattle.moved_list.specs.Steps.{number_is, EntryPut, moved_entries};
ghost use Rattle.moved_list.specs.declared.MovedError.TheVariants.{Area, Refused};

use answers::Refusal;
use book_answers::{AreaError, BookError};
use name::labels::put_label;

// Why the call lists no slots.
#[derive(Clone, Copy)]
pub enum MovedError {
    Area(AreaError),
    Refused(Refusal),
    NoRoom,
}

impl MovedError {
    // The number of the refusal.
    pub fn number(self) -> u32
        ensures { result ≡ moved_number self }
    {
        match self {
            MovedError::Area(a) => a.number(),
            MovedError::Refused(f) => f.number(),
            MovedError::NoRoom => 33,
        }
    }

    // Its place.
    pub fn place(self) -> usize
        ensures { result ≡ moved_place self }
    {
        match self {
            MovedError::Refused(f) => f.place(),
            _ => 0,
        }
    }
}

impl From<AreaError> for MovedError {
    ghost from_gives = { λ a e. e ≡ Area a };

    fn from(a: AreaError) -> MovedError {
        MovedError::Area(a)
    }
}

impl From<Refusal> for MovedError {
    ghost from_gives = { λ f e. e ≡ Refused f };

    fn from(f: Refusal) -> MovedError {
        MovedError::Refused(f)
    }
}

// The number beside a slot: the refusal, 0 where the name is filed otherwise, and none where it stays as it is filed.
fn number_beside(change: Result<bool, BookError>) -> Option<u32>
    ensures { number_is result ≡ change_is change }
{
    match change {
        Ok(true) => None,
        Ok(false) => Some(0),
        Err(e) => Some(e.number()),
    }
}

// Puts the entry of a slot, its number and the one beside it, whatever that is, behind the first `len` words of the list, if it fits; none where there is
// no number. Answers the length with it.
pub fn put_change(list: &mut [u32], len: usize, slot: usize, change: Option<u32>) -> usize
    requires { (len ≤ 2 * slot_count) × (slot ≤ slot_count) }
    ensures { EntryPut slot (number_is change) list.old list.new len result }
{
    match change {
        None => len,
        Some(number) => put_label(list, len, true, &[slot as u32, number]),
    }
}

// Puts the entry of a slot so, where a table files its name otherwise or not at all.
pub fn put_entry(
    list: &mut [u32],
    len: usize,
    slot: usize,
    change: Result<bool, BookError>,
) -> usize
    requires { (len ≤ 2 * slot_count) × (slot ≤ slot_count) }
    ensures { EntryPut slot (change_is change) list.old list.new len result }
{
    put_change(list, len, slot, number_beside(change))
}

// The words of the entries, two each; none beside a refusal.
pub fn moved_words(answer: Result<usize, MovedError>) -> usize
    requires { moved_entries answer ≤ slot_count }
    ensures { result ≡ 2 * moved_entries answer }
{
    2 * answer.unwrap_or(0)
}
