// What the look-alike test remembers: the components of the wholes that it met last, so that they are found once for the characters of a text and
// for the labels of a name. SLOTS slots, each with the places of a whole's two lists and a number for each group; then the slot that is written
// next. A slot of zeros is for a whole without members, so that zeros are a memo.
#![tactic(auto)]

ghost use Rattle.std.specs.Prelude.{◌≡◌, length, IfSome};
ghost use Rattle.sections.specs.Laid.{Laid};
ghost use Rattle.table.specs.Spans.{Fits};
ghost use Rattle.memo.specs.Memo.{slot_size, Small, key_of, Keyed, SlotFor, Memo, Sought, Recalled};

use components::components;
use sections::Sections;
use table::Span;

const SLOTS: usize = 8;

// Words of a slot, and of the places in front of it.
const SLOT: usize = 260;

const KEY: usize = 4;

// Where the slot that is written next stands.
const NEXT: usize = SLOTS * SLOT;

// Words of a memo.
pub const MEMO: usize = NEXT + 1;

// What stands in front of the slot for a whole: the places of its lists.
fn key_of(valid: Span, confused: Span) -> [u32; KEY]
    requires { Small valid × Small confused }
    ensures { result ≡ key_of valid confused }
{
    [
        valid.from as u32,
        valid.to as u32,
        confused.from as u32,
        confused.to as u32,
    ]
}

// The slot for a whole, if there is one.
fn find(words: &[u32], memo: &[u32], valid: Span, confused: Span) -> Option<usize>
    requires memo { Memo words.now memo.now }
    requires small { Small valid × Small confused }
    ensures { IfSome result (Sought words.now valid confused memo.now) }
{
    let key = key_of(valid, confused);
    for j in 0..SLOTS {
        let from = SLOT * j;
        if memo[from..from + KEY] == key[..] {
            return Some(j);
        }
    }
    None
}

// Writes the places of a whole's lists in front of a slot.
fn put_key(slot: &mut [u32], valid: Span, confused: Span)
    requires slot_len { length slot.old ≡ slot_size }
    requires small { Small valid × Small confused }
    ensures { Keyed valid confused slot.new }
{
    slot[..KEY].copy_from_slice(&key_of(valid, confused));
}

// Writes a slot for a whole.
fn fill(words: &[u32], ix: Sections, slot: &mut [u32], valid: Span, confused: Span)
    requires laid { Laid words.now ix }
    requires fits { Fits words.now valid × Fits words.now confused }
    requires slot_len { length slot.old ≡ slot_size }
    ensures { SlotFor words.now valid confused slot.new }
{
    put_key(slot, valid, confused);
    components(
        ix.groups.of(words),
        &mut slot[KEY..],
        valid.of(words),
        confused.of(words),
    );
}

// The slot for a whole, which is written if there is none.
pub fn recall(words: &[u32], ix: Sections, memo: &mut [u32], valid: Span, confused: Span) -> usize
    requires laid { Laid words.now ix }
    requires fits { Fits words.now valid × Fits words.now confused }
    requires memo { Memo words.now memo.old }
    ensures { Recalled words.now valid confused memo.new result }
{
    if let Some(found) = find(words, memo, valid, confused) {
        return found;
    }
    let j = memo[NEXT] as usize % SLOTS;
    memo[NEXT] = j as u32 + 1;
    let from = SLOT * j;
    let to = from + SLOT;
    fill(words, ix, &mut memo[from..to], valid, confused);
    j
}
