// The payee book (02, Item 7) for C and Rust.
ghost use Rattle.book_crossing.specs.BookCrossing.{SaveCrosses, FindCrosses, ForgetCrosses, ResetCrosses};

use book_crossing::{
    WanlophengBook, WanlophengFound, cross_find, cross_forget, cross_reset, cross_save,
};
use book_slots::Account;

// Files an account under a name.
#[unsafe(no_mangle)]
pub extern "C" fn wanlopheng_save(
    name: &[u32],
    words: &[u32],
    setting: u32,
    account: Account,
    area: &mut [u32],
    answer: &mut [u32],
    work: &mut [u32],
) -> WanlophengBook
    ensures { SaveCrosses setting words.now name.now account area.old area.new answer.old answer.new work.old work.new result }
{
    cross_save(name, words, setting, account, area, answer, work)
}

// Answers the account that is filed under a name.
#[unsafe(no_mangle)]
pub extern "C" fn wanlopheng_find(
    name: &[u32],
    words: &[u32],
    setting: u32,
    area: &[u32],
    answer: &mut [u32],
    work: &mut [u32],
) -> WanlophengFound
    ensures { FindCrosses setting words.now name.now area.now answer.old answer.new work.old work.new result }
{
    cross_find(name, words, setting, area, answer, work)
}

// Clears the slot that is filed under a name.
#[unsafe(no_mangle)]
pub extern "C" fn wanlopheng_forget(
    name: &[u32],
    words: &[u32],
    setting: u32,
    area: &mut [u32],
    answer: &mut [u32],
    work: &mut [u32],
) -> WanlophengBook
    ensures { ForgetCrosses setting words.now name.now area.old area.new answer.old answer.new work.old work.new result }
{
    cross_forget(name, words, setting, area, answer, work)
}

// Clears every slot.
#[unsafe(no_mangle)]
pub extern "C" fn wanlopheng_reset(
    area: &mut [u32],
    answer: &mut [u32],
    work: &mut [u32],
) -> WanlophengBook
    ensures { ResetCrosses area.old area.new answer.old answer.new work.old work.new result }
{
    cross_reset(area, answer, work)
}
