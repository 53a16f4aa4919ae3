// The slots of a payee book that a new table would file differently. moved_list/specs/Moved.antt states what the call answers.
#![tactic(auto)]

ghost use Rattle.std.specs.Prelude.{◌≤◌, ◌≡◌, false, length, map};
ghost use Rattle.limits.specs.Limits.{least_work};
ghost use Rattle.sections.specs.Laid.{Laid};
ghost use Rattle.book_slots.specs.Book.{slot_count, slot_of};
ghost use Rattle.book_slots.specs.Damage.{slot_damaged};
ghost use Rattle.refiled.specs.Changes.{change_is, verdict_is};
ghost use Rattle.refiling.specs.Labels.{Lent, Lasting};
ghost use Rattle.lists.specs.Lists.{any};
ghost use Rattle.moved_list.specs.Moved.{slot_change};
ghost use Rattle.moved_list.specs.Promise.{MovedCalls};
ghost use Rattle.moved_list.specs.Steps.{slot_verdict, SlotsListed, MovedJudged};

use book_answers::BookError;
use book_forms::open;
use book_slots::SLOT;
use ending::finish;
use memo::MEMO;
use moved_list::{MovedError, moved_words, put_entry};
use name::admit::admit;
use refiling::refile;
use sections::Sections;
use unpaired::KNOWN_WORDS;
use unpaired::index::index_pairs;

// How the table files the name of a slot; a free one stays.
fn slot_change(
    slot: &[u32; SLOT],
    words: &[u32],
    ix: Sections,
    unpaired: &mut [u32],
    w: &mut [u32],
    memo: &mut [u32],
) -> Result<bool, BookError>
    requires whole { slot_damaged (slot_of slot.now) ≡ false }
    requires lent { Lent words.now ix unpaired.old w.old memo.old }
    ensures verdict { verdict_is result ≡ slot_verdict words.now (length w.old) (slot_of slot.now) }
    ensures result_value { change_is result ≡ slot_change words.now (length w.old) (slot_of slot.now) }
    ensures lasting { Lasting words.now w.old w.new unpaired.new memo.new }
{
    let n = slot[0] as usize;
    if n == 0 {
        return Ok(true);
    }
    let end = 1 + n;
    refile(words, ix, &slot[1..end], unpaired, w, memo)
}

// Lists the slots whose names the table files otherwise or not at all. What depends on the table alone is lent from slot to slot. Answers the
// length of the list.
fn list_slots(
    slots: &[[u32; SLOT]],
    words: &[u32],
    ix: Sections,
    list: &mut [u32],
    unpaired: &mut [u32],
    w: &mut [u32],
    memo: &mut [u32],
) -> usize
    requires whole { (length slots.now ≤ slot_count) × (any slot_damaged (map slot_of slots.now) ≡ false) }
    requires lent { Lent words.now ix unpaired.old w.old memo.old }
    ensures { SlotsListed words.now (map slot_of slots.now) list.old list.new w.old w.new result }
{
    let mut len = 0;
    for (i, slot) in slots.iter().enumerate() {
        let change = slot_change(slot, words, ix, unpaired, w, memo);
        len = put_entry(list, len, i, change);
    }
    len
}

// The entries of slots that are whole, after 1 and 2.
fn list_book(
    slots: &[[u32; SLOT]],
    words: &[u32],
    ix: Sections,
    list: &mut [u32],
    w: &mut [u32],
) -> usize
    requires whole { (length slots.now ≤ slot_count) × (any slot_damaged (map slot_of slots.now) ≡ false) }
    requires laid { Laid words.now ix × (least_work ≤ length w.old) }
    ensures { SlotsListed words.now (map slot_of slots.now) list.old list.new w.old w.new result }
{
    let mut unpaired = [0u32; KNOWN_WORDS];
    index_pairs(words, ix, &mut unpaired);
    let mut memo = [0u32; MEMO];
    list_slots(slots, words, ix, list, &mut unpaired, w, &mut memo)
}

// The call as far as 2: the slots are listed as far as they fit.
fn moved_judged(
    area: &[u32],
    words: &[u32],
    list: &mut [u32],
    work: &mut [u32],
) -> Result<usize, MovedError>
    ensures { MovedJudged words.now area.now list.old list.new work.old work.new result }
{
    let slots = open(area)?;
    let ix = admit(words, &[], work.len())?;
    let len = list_book(slots, words, ix, list, work);
    Ok(len / 2)
}

// Lists the slots of a book that a new table would file differently: two words for each, its number and the refusal, 0 where it is filed
// otherwise. The area is only read. The words of the list behind the entries, and the work area, are cleared; a refusal clears both.
pub fn moved(
    area: &[u32],
    words: &[u32],
    list: &mut [u32],
    work: &mut [u32],
) -> Result<usize, MovedError>
    ensures { MovedCalls words.now area.now list.old list.new work.old work.new result }
{
    let judged = moved_judged(area, words, list, work);
    let length = moved_words(judged);
    if !finish(list, work, length) {
        return Err(MovedError::NoRoom);
    }
    judged
}
