// The payee book for C and Rust, each call with the promise of the call that it hands on and its answer as a struct of plain numbers. The crate `boundary`
// gives them their names outside.
#![tactic(auto)]

ghost use Rattle.std.specs.Prelude.{◌≡◌};
ghost use Rattle.book_answers.specs.Calls.{no_account};
ghost use Rattle.book_answers.specs.Promise.{done_values, find_values};
ghost use Rattle.book_crossing.specs.BookCrossing.{book_fields, found_fields, SaveCrosses, FindCrosses, ForgetCrosses, ResetCrosses};

use book_answers::{BookError, no_account};
use book_slots::Account;

// The refusal number, 0 where there is none, and its place.
#[repr(C)]
#[derive(Clone, Copy)]
pub struct WanlophengBook {
    pub number: u32,
    pub place: usize,
}

// The same and the account, zeros beside a refusal.
#[repr(C)]
#[derive(Clone, Copy)]
pub struct WanlophengFound {
    pub number: u32,
    pub place: usize,
    pub account: Account,
}

impl From<Result<(), BookError>> for WanlophengBook {
    ghost from_gives = { λ r w. book_fields w no_account ≡ done_values r };

    // An answer as plain numbers.
    fn from(answer: Result<(), BookError>) -> WanlophengBook {
        match answer {
            Ok(_) => WanlophengBook {
                number: 0,
                place: 0,
            },
            Err(e) => {
                let number = e.number();
                let place = e.place();
                WanlophengBook { number, place }
            }
        }
    }
}

impl From<Result<Account, BookError>> for WanlophengFound {
    ghost from_gives = { λ r w. found_fields w ≡ find_values r };

    // An account that is found as plain numbers.
    fn from(found: Result<Account, BookError>) -> WanlophengFound {
        match found {
            Ok(account) => WanlophengFound {
                number: 0,
                place: 0,
                account,
            },
            Err(e) => WanlophengFound {
                number: e.number(),
                place: e.place(),
                account: no_account(),
            },
        }
    }
}

// Files an account under a name.
pub fn cross_save(
    name: &[u32],
    words: &[u32],
    setting: u32,
    account: Account,
    area: &mut [u32],
    answer: &mut [u32],
    work: &mut [u32],
) -> WanlophengBook
    ensures { SaveCrosses setting words.now name.now account area.old area.new answer.old answer.new work.old work.new result }
{
    let told = book::calls::save(name, words, setting, account, area, answer, work);
    WanlophengBook::from(told)
}

// Answers the account that is filed under a name.
pub fn cross_find(
    name: &[u32],
    words: &[u32],
    setting: u32,
    area: &[u32],
    answer: &mut [u32],
    work: &mut [u32],
) -> WanlophengFound
    ensures { FindCrosses setting words.now name.now area.now answer.old answer.new work.old work.new result }
{
    let found = book::calls::find(name, words, setting, area, answer, work);
    WanlophengFound::from(found)
}

// Clears the slot that is filed under a name.
pub fn cross_forget(
    name: &[u32],
    words: &[u32],
    setting: u32,
    area: &mut [u32],
    answer: &mut [u32],
    work: &mut [u32],
) -> WanlophengBook
    ensures { ForgetCrosses setting words.now name.now area.old area.new answer.old answer.new work.old work.new result }
{
    let told = book::calls::forget(name, words, setting, area, answer, work);
    WanlophengBook::from(told)
}

// Clears every slot.
pub fn cross_reset(area: &mut [u32], answer: &mut [u32], work: &mut [u32]) -> WanlophengBook
    ensures { ResetCrosses area.old area.new answer.old answer.new work.old work.new result }
{
    let told = book_reset::reset(area, answer, work);
    WanlophengBook::from(told)
}
