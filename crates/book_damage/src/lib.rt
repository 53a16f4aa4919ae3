// 41: whether the slots of an area are damaged.
#![tactic(auto)]

ghost use Rattle.std.specs.Prelude.{◌≡◌, false, ◌∷◌, map};
ghost use Rattle.lists.specs.Lists.{any};
ghost use Rattle.book_slots.specs.Book.{slot_of};
ghost use Rattle.book_slots.specs.Damage.{slot_damaged, name_twice, damaged};
ghost use Rattle.book_slots.specs.Walks.{named_again};

use book_slots::slots::{all_zero, find_slot};
use book_slots::{FORM, SLOT};

// Whether a slot is damaged by itself.
fn slot_damaged(slot: &[u32; SLOT]) -> bool
    ensures { result ≡ slot_damaged (slot_of slot.now) }
{
    let n = slot[0] as usize;
    if n > FORM {
        return true;
    }
    let past = 1 + n;
    if !all_zero(&slot[past..256]) {
        return true;
    }
    if n == 0 {
        return !all_zero(&slot[256..]);
    }
    false
}

// Whether some slot is damaged by itself.
fn any_damaged(slots: &[[u32; SLOT]]) -> bool
    ensures { result ≡ any slot_damaged (map slot_of slots.now) }
{
    slots.iter().any(|slot| slot_damaged(slot))
}

// Whether a slot that is not damaged is filed, and one of those behind it has its name.
fn named_again(slot: &[u32; SLOT], behind: &[[u32; SLOT]]) -> bool
    requires { slot_damaged (slot_of slot.now) ≡ false }
    ensures { result ≡ named_again (slot_of slot.now ∷ map slot_of behind.now) }
{
    let n = slot[0] as usize;
    if n == 0 {
        return false;
    }
    let end = 1 + n;
    find_slot(behind, &slot[1..end]).is_some()
}

// Whether two filed slots have one name. Words are compared only where the lengths are equal.
fn name_twice(slots: &[[u32; SLOT]]) -> bool
    requires { any slot_damaged (map slot_of slots.now) ≡ false }
    ensures { result ≡ name_twice (map slot_of slots.now) }
{
    for (i, slot) in slots.iter().enumerate() {
        if named_again(slot, &slots[i + 1..]) {
            return true;
        }
    }
    false
}

// Whether the slots are damaged.
pub fn is_damaged(slots: &[[u32; SLOT]]) -> bool
    ensures { result ≡ damaged (map slot_of slots.now) }
{
    any_damaged(slots) || name_twice(slots)
}
