// The calls of the book that take a name: each answers, and leaves the answer buffer and the work area as zeros.
ghost use Rattle.std.specs.Prelude.{length};
ghost use Rattle.book_answers.specs.Calls.{save_in, find_in, forget_in, by_form};
ghost use Rattle.book_answers.specs.Promise.{done_values, find_values, SaveCalls, FindCalls, ForgetCalls};
ghost use Rattle.book.specs.Steps.{Judged};

use book_answers::BookError;
use book_filing::form_for;
use book_jobs::{find_in, forget_in, save_in};
use book_slots::{Account, FRONT};

// Each job in two steps, and not one function with the job as a closure: find is lent the area to read, the others to write, and what a closure changes
// in what it borrows its caller doesn't learn.
fn save_judged(
    name: &[u32],
    words: &[u32],
    setting: u32,
    account: Account,
    area: &mut [u32],
    answer: &mut [u32],
    work: &mut [u32],
) -> Result<(), BookError>
    ensures { Judged (by_form (save_in account.words) setting words.now name.now area.old (length answer.old) (length work.old)) area.old area.new answer.old answer.new work.old work.new (done_values result) }
{
    let n = form_for(area, name, words, setting, answer, work)?;
    save_in(&mut area[FRONT..], &answer[..n], account)
}

// Files an account under a name: a filed name's account is replaced, and another name takes the lowest free slot.
pub fn save(
    name: &[u32],
    words: &[u32],
    setting: u32,
    account: Account,
    area: &mut [u32],
    answer: &mut [u32],
    work: &mut [u32],
) -> Result<(), BookError>
    ensures { SaveCalls setting words.now name.now account area.old area.new answer.old answer.new work.old work.new result }
{
    let told = save_judged(name, words, setting, account, area, answer, work);
    buffers::clear(answer);
    buffers::clear(work);
    told
}

fn find_judged(
    name: &[u32],
    words: &[u32],
    setting: u32,
    area: &[u32],
    answer: &mut [u32],
    work: &mut [u32],
) -> Result<Account, BookError>
    ensures { Judged (by_form find_in setting words.now name.now area.now (length answer.old) (length work.old)) area.now area.now answer.old answer.new work.old work.new (find_values result) }
{
    let n = form_for(area, name, words, setting, answer, work)?;
    find_in(&area[FRONT..], &answer[..n])
}

// Answers the account that is filed under a name.
pub fn find(
    name: &[u32],
    words: &[u32],
    setting: u32,
    area: &[u32],
    answer: &mut [u32],
    work: &mut [u32],
) -> Result<Account, BookError>
    ensures { FindCalls setting words.now name.now area.now answer.old answer.new work.old work.new result }
{
    let told = find_judged(name, words, setting, area, answer, work);
    buffers::clear(answer);
    buffers::clear(work);
    told
}

fn forget_judged(
    name: &[u32],
    words: &[u32],
    setting: u32,
    area: &mut [u32],
    answer: &mut [u32],
    work: &mut [u32],
) -> Result<(), BookError>
    ensures { Judged (by_form forget_in setting words.now name.now area.old (length answer.old) (length work.old)) area.old area.new answer.old answer.new work.old work.new (done_values result) }
{
    let n = form_for(area, name, words, setting, answer, work)?;
    forget_in(&mut area[FRONT..], &answer[..n])
}

// Clears the slot that is filed under a name, which is free again.
pub fn forget(
    name: &[u32],
    words: &[u32],
    setting: u32,
    area: &mut [u32],
    answer: &mut [u32],
    work: &mut [u32],
) -> Result<(), BookError>
    ensures { ForgetCalls setting words.now name.now area.old area.new answer.old answer.new work.old work.new result }
{
    let told = forget_judged(name, words, setting, area, answer, work);
    buffers::clear(answer);
    buffers::clear(work);
    told
}
