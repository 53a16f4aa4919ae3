// What is done in the slots under a form: the words of the slots alone are lent, without the front words.
#![tactic(auto)]

ghost use Rattle.std.specs.Prelude.{◌≤◌, ◌*◌, ◌≡◌, length};
ghost use Rattle.book_slots.specs.Book.{form_room, slot_size, slot_count, slots_of};
ghost use Rattle.book_answers.specs.Calls.{save_in, find_in, forget_in};
ghost use Rattle.book_answers.specs.Promise.{done_values, find_values};
ghost use Rattle.book_jobs.specs.Works.{Works};

use book_answers::BookError;
use book_keeping::{account_of, clear_at, fill_at};
use book_slots::Account;
use book_slots::slots::{find_slot, slots_of, spot_for};

// Files an account under a form.
pub fn save_in(slots: &mut [u32], form: &[u32], account: Account) -> Result<(), BookError>
    requires slots_len { length slots.old ≡ slot_size * slot_count }
    requires form_len_bound { length form.now ≤ form_room }
    ensures { Works (save_in account.words form.now (slots_of slot_count slots.old)) slots.old slots.new (done_values result) }
{
    let i = spot_for(slots_of(slots), form).ok_or(BookError::Full)?;
    fill_at(slots, i, form, account);
    Ok(())
}

// The account that is filed under a form.
pub fn find_in(slots: &[u32], form: &[u32]) -> Result<Account, BookError>
    requires slots_len { length slots.now ≡ slot_size * slot_count }
    requires form_len_bound { length form.now ≤ form_room }
    ensures { Works (find_in form.now (slots_of slot_count slots.now)) slots.now slots.now (find_values result) }
{
    let slots = slots_of(slots);
    let i = find_slot(slots, form).ok_or(BookError::NotFiled)?;
    Ok(account_of(&slots[i]))
}

// Clears the slot that has the form's name.
pub fn forget_in(slots: &mut [u32], form: &[u32]) -> Result<(), BookError>
    requires slots_len { length slots.old ≡ slot_size * slot_count }
    requires form_len_bound { length form.now ≤ form_room }
    ensures { Works (forget_in form.now (slots_of slot_count slots.old)) slots.old slots.new (done_values result) }
{
    let i = find_slot(slots_of(slots), form).ok_or(BookError::NotFiled)?;
    clear_at(slots, i);
    Ok(())
}
