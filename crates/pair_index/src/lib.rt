// One record of an index of the decompositions of two items: a bit for each second item, and a slot for two items, which says where the records
// stand.
#![tactic(auto)]

use bit_sets::put;

// The words of the set that are bits.
const BIT_WORDS: usize = 1495;

// The first bit of second items.
pub const SECONDS_PLACE: u32 = 43744;

ghost use Rattle.std.specs.Prelude.{◌≡◌, ◌+◌, ◌*◌, ◌<◌, ◌≤◌, length};
ghost use Rattle.pair_index.specs.Index.{bit_words, known_words, slot_place, widened, BitPut, Enters};

// Puts a bit.
pub fn put_bit(unpaired: &mut [u32], d: u32)
    requires { (length unpaired.old ≡ known_words) × (d < bit_words * 32) }
    ensures { BitPut unpaired.old unpaired.new d }
{
    put(&mut unpaired[..BIT_WORDS], d);
}

// The slot of two items.
pub fn slot_of(a: u32, b: u32) -> usize
    ensures { (result ≡ slot_place a b) × (bit_words ≤ result) × (result < known_words) }
{
    (1495 + (a % 65536 * 2 + b % 65536 * 8851) / 256 % 1024) as usize
}

// A slot that says the place i too.
fn widen(v: u32, i: u32) -> u32
    requires { i < 65535 }
    ensures { result ≡ widened v i }
{
    let stop = (i + 1) * 65536;
    if v == 0 {
        return stop + i;
    }
    stop + v % 65536
}

// Puts the record of n items at i into the index, if it has two.
pub fn enter(part: &[u32], unpaired: &mut [u32], n: usize, i: usize)
    requires unpaired_len { (length unpaired.old ≡ known_words) × (i < 65535) }
    requires n_in_bounds { i + 2 + n ≤ length part.now }
    ensures { Enters part.now unpaired.old unpaired.new n i }
{
    if n != 2 {
        return;
    }
    let a = part[i + 2];
    let b = part[i + 3];
    put_bit(unpaired, SECONDS_PLACE + b % 4096);
    let k = slot_of(a, b);
    unpaired[k] = widen(unpaired[k], i as u32);
}
