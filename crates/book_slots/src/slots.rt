// The slots of an area, one behind the other: the one that has a name, and the lowest that is free.
ghost use Rattle.std.specs.Prelude.{◌≤◌, ◌/◌, ◌≡◌, length, map};
ghost use Rattle.lists.specs.Lists.{place_with};
ghost use Rattle.book_slots.specs.Book.{form_room, slot_size, slot_of, slots_of, is_free, has_name, spot_for};
ghost use Rattle.book_slots.specs.Damage.{zeros};
ghost use Rattle.book_slots.specs.Walks.{place_is};

use crate::SLOT;

// Whether every word is zero.
pub fn all_zero(s: &[u32]) -> bool
    ensures { result ≡ zeros s.now }
{
    s.iter().all(|&w| w == 0)
}

// Whether the slot has this name. The lengths are compared first.
fn has_name(slot: &[u32; SLOT], form: &[u32]) -> bool
    requires { length form.now ≤ form_room }
    ensures { result ≡ has_name form.now (slot_of slot.now) }
{
    let n = slot[0] as usize;
    if n != form.len() {
        return false;
    }
    let end = 1 + form.len();
    buffers::same(&slot[1..end], form)
}

// The slots that the words are, one behind the other.
pub fn slots_of(words: &[u32]) -> &[[u32; SLOT]]
    ensures { map slot_of result.now ≡ slots_of (length words.now / slot_size) words.now }
{
    words.as_chunks::<SLOT>().0
}

// The number, from 0, of the first slot that has this name.
pub fn find_slot(slots: &[[u32; SLOT]], form: &[u32]) -> Option<usize>
    requires { length form.now ≤ form_room }
    ensures { place_is result ≡ place_with (has_name form.now) 0 (map slot_of slots.now) }
{
    slots.iter().position(|slot| has_name(slot, form))
}

// The number of the lowest free slot.
pub fn free_slot(slots: &[[u32; SLOT]]) -> Option<usize>
    ensures { place_is result ≡ place_with is_free 0 (map slot_of slots.now) }
{
    slots.iter().position(|slot| slot[0] == 0)
}

// The slot that has this name, otherwise the lowest free one.
pub fn spot_for(slots: &[[u32; SLOT]], form: &[u32]) -> Option<usize>
    requires { length form.now ≤ form_room }
    ensures { place_is result ≡ spot_for form.now (map slot_of slots.now) }
{
    find_slot(slots, form).or_else(|| free_slot(slots))
}
