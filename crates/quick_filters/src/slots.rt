// An index of places in a part by the two words that stand there, 0 for none: fixed memory, so no map.
ghost use Rattle.std.specs.Prelude.{◌≡◌, ◌+◌, ◌<◌, ◌≤◌, length, IfSome};
ghost use Rattle.quick_filters.specs.Slot.{most_looked, hash_of, SlotsIn, Reached, Compared, Stored};

// So many slots a search asks at most.
const TRIES: u32 = 64;

// The slot where a search for x, y starts.
fn hash(x: u32, y: u32) -> u32
    ensures { result ≡ hash_of x y }
{
    (x % 65536 * 40503 + y % 65536 * 10007) % 65536 / 32
}

// Whether x, y are the words at the place of a slot.
fn same_words(part: &[u32], v: usize, x: u32, y: u32) -> bool
    requires { (1 ≤ v) × (v < length part.now) }
    ensures { Compared part.now v x y result }
{
    part[v - 1] == x && part[v] == y
}

// The slot of x, y, or an empty one where they would be, if one of them is found.
pub fn find_slot(part: &[u32], slots: &[u32], x: u32, y: u32) -> Option<usize>
    requires { SlotsIn part.now slots.now }
    ensures { IfSome result (Reached part.now slots.now x y) }
{
    let start = hash(x, y);
    for j in 0..TRIES {
        let at = ((start + j) % 2048) as usize;
        let v = slots[at] as usize;
        if v == 0 {
            return Some(at);
        }
        if same_words(part, v, x, y) {
            return Some(at);
        }
    }
    None
}

// Puts the words at s into the index where the record has two items, unless they are there or find no slot.
pub fn keep(part: &[u32], slots: &mut [u32], n: usize, s: usize) -> bool
    requires slots_in { SlotsIn part.now slots.old }
    requires s_in_bounds { (n ≡ 2 → s + 1 < length part.now) × (length part.now ≤ most_looked) }
    ensures { Stored part.now slots.old slots.new n s result }
{
    if n != 2 {
        return true;
    }
    let Some(at) = find_slot(part, slots, part[s], part[s + 1]) else {
        return false;
    };
    if slots[at] != 0 {
        return false;
    }
    slots[at] = (s + 1) as u32;
    true
}
