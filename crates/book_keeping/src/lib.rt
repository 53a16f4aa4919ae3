// Writing, reading and clearing the slot at a place.
#![tactic(auto)]

ghost use Rattle.std.specs.Prelude.{◌≤◌, ◌<◌, ◌/◌, ◌%◌, ◌≡◌, ◌∷◌, ◌++◌, length, set, drop};
ghost use Rattle.lists.specs.Lists.{joined_map};
ghost use Rattle.lists.specs.Filled.{filled};
ghost use Rattle.book_slots.specs.Book.{form_room, slot_size, slot_of, slots_of, in_slot, slot_for, empty_slot};

use book_slots::{Account, SLOT};

// The words of `src` stand in front, and zeros behind them.
fn put_words(dst: &mut [u32], src: &[u32])
    requires { length src.now ≤ length dst.old }
    ensures { dst.new ≡ filled (length dst.old) src.now }
{
    buffers::copy_into(dst, src);
    let end = src.len();
    buffers::clear(&mut dst[end..]);
}

// Writes the length of a form and the form into a slot. Its account stays.
fn put_form(slot: &mut [u32], form: &[u32])
    requires slot_len { length slot.old ≡ slot_size }
    requires form_len_bound { length form.now ≤ form_room }
    ensures { slot.new ≡ (length form.now ∷ filled form_room form.now) ++ drop 256 slot.old }
{
    put_words(&mut slot[1..256], form);
    slot[0] = form.len() as u32;
}

// Writes a form and its account into a slot.
fn fill_slot(slot: &mut [u32], form: &[u32], account: Account)
    requires slot_len { length slot.old ≡ slot_size }
    requires form_len_bound { length form.now ≤ form_room }
    ensures { slot.new ≡ in_slot (slot_for form.now account.words) }
{
    put_form(slot, form);
    let words = account.words;
    put_words(&mut slot[256..], &words);
}

// The slot with the number i holds the form and its account. The words are lent and not the slots: `as_chunks_mut` says nothing of what it leaves.
pub fn fill_at(slots: &mut [u32], i: usize, form: &[u32], account: Account)
    requires slots_len { length slots.old % slot_size ≡ 0 }
    requires i_lt_count { i < length slots.old / slot_size }
    requires form_len_bound { length form.now ≤ form_room }
    ensures { slots.new ≡ joined_map in_slot (set (slots_of (length slots.old / slot_size) slots.old) i (slot_for form.now account.words)) }
{
    let at = SLOT * i;
    let end = at + SLOT;
    fill_slot(&mut slots[at..end], form, account);
}

// The slot with the number i is zeroed.
pub fn clear_at(slots: &mut [u32], i: usize)
    requires slots_len { length slots.old % slot_size ≡ 0 }
    requires i_lt_count { i < length slots.old / slot_size }
    ensures { slots.new ≡ joined_map in_slot (set (slots_of (length slots.old / slot_size) slots.old) i empty_slot) }
{
    let at = SLOT * i;
    let past = at + SLOT;
    buffers::clear(&mut slots[at..past]);
}

// The account of a slot.
pub fn account_of(slot: &[u32; SLOT]) -> Account
    ensures { result.words ≡ (slot_of slot.now).account }
{
    let mut words = [0; 8];
    words.copy_from_slice(&slot[256..]);
    Account { words }
}
