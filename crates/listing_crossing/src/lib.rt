// The two lists of 02, Item 14, for C and Rust, each call with the promise of the call that it hands on and its answer as a struct of plain numbers. The
// crate `boundary` gives them their names outside.
#![tactic(auto)]

ghost use Rattle.std.specs.Prelude.{◌≡◌};
ghost use Rattle.moved_list.specs.Promise.{moved_values};
ghost use Rattle.respelled.specs.Promise.{respelled_values};
ghost use Rattle.listing_crossing.specs.ListingCrossing.{list_fields, MovedCrosses, RespelledCrosses};

use moved::moved;
use moved_list::MovedError;
use respelled::{RespelledError, respelled};

// The refusal number, 0 where there is none, its place, and the number of entries, 0 beside a refusal.
#[repr(C)]
#[derive(Clone, Copy)]
pub struct WanlophengList {
    pub number: u32,
    pub place: usize,
    pub entries: usize,
}

impl From<Result<usize, MovedError>> for WanlophengList {
    ghost from_gives = { λ r w. list_fields w ≡ moved_values r };

    // An answer on moved slots as plain numbers.
    fn from(answer: Result<usize, MovedError>) -> WanlophengList {
        match answer {
            Ok(entries) => WanlophengList {
                number: 0,
                place: 0,
                entries,
            },
            Err(e) => {
                let number = e.number();
                let place = e.place();
                WanlophengList {
                    number,
                    place,
                    entries: 0,
                }
            }
        }
    }
}

impl From<Result<usize, RespelledError>> for WanlophengList {
    ghost from_gives = { λ r w. list_fields w ≡ respelled_values r };

    // An answer on groups as plain numbers.
    fn from(answer: Result<usize, RespelledError>) -> WanlophengList {
        match answer {
            Ok(entries) => WanlophengList {
                number: 0,
                place: 0,
                entries,
            },
            Err(e) => WanlophengList {
                number: e.number(),
                place: e.place(),
                entries: 0,
            },
        }
    }
}

// Lists the slots of a book that a new table would file differently.
pub fn cross_moved(
    area: &[u32],
    words: &[u32],
    list: &mut [u32],
    work: &mut [u32],
) -> WanlophengList
    ensures { MovedCrosses words.now area.now list.old list.new work.old work.new result }
{
    let told = moved(area, words, list, work);
    WanlophengList::from(told)
}

// Lists the groups in which a label could be respelled.
pub fn cross_respelled(
    label: &[u32],
    words: &[u32],
    list: &mut [u32],
    work: &mut [u32],
) -> WanlophengList
    ensures { RespelledCrosses words.now label.now list.old list.new work.old work.new result }
{
    let told = respelled(label, words, list, work);
    WanlophengList::from(told)
}
