// Ranges of codepoints put into the set of a window, word by word where a word is full.
ghost use Rattle.std.specs.Prelude.{◌≡◌, ◌&&◌, ◌+◌, ◌*◌, ◌<◌, ◌≤◌, length, leb, ltb};
ghost use Rattle.table.specs.Part.{in_pairs};
ghost use Rattle.bit_sets.specs.Sets.{Put, window_words, LowEnd, HighEnd};

use crate::put;

const WINDOW: u32 = 0x10000;

// Puts the places from `from` up to `to` into the set, one by one.
fn put_places(set: &mut [u32], from: u32, to: u32)
    requires { to ≤ length set.old * 32 }
    ensures { Put set.old set.new (λ d. leb from d && ltb d to) }
{
    for d in from..to {
        put(set, d);
    }
}

// Puts the places from `from` up to `to` into the set.
fn put_run(set: &mut [u32], from: u32, to: u32)
    requires set_len { length set.old ≡ window_words }
    requires from_lt_to { from < to }
    requires to_bound { to ≤ 0x10000 }
    ensures { Put set.old set.new (λ d. leb from d && ltb d to) }
{
    let a = (from + 31) / 32;
    let b = to / 32;
    if b <= a {
        put_places(set, from, to);
        return;
    }
    put_places(set, from, a * 32);
    set[a as usize..b as usize].fill(0xFFFFFFFF);
    put_places(set, b * 32, to);
}

// The place from which on the window's codepoints are at least `first`.
fn low_end(base: u32, first: u32) -> u32
    ensures { LowEnd base first result }
{
    if first <= base {
        return 0;
    }
    let d = first - base;
    if d < WINDOW {
        return d;
    }
    WINDOW
}

// The place up to which the window's codepoints are at most `last`.
fn high_end(base: u32, last: u32) -> u32
    ensures { HighEnd base last result }
{
    if last < base {
        return 0;
    }
    let d = last - base;
    if d < WINDOW {
        return d + 1;
    }
    WINDOW
}

// Puts the codepoints from first to last into the set that are in the window.
fn put_range(set: &mut [u32], base: u32, first: u32, last: u32)
    requires { length set.old ≡ window_words }
    ensures { Put set.old set.new (λ d. leb first (base + d) && leb (base + d) last) }
{
    let from = low_end(base, first);
    let to = high_end(base, last);
    if from < to {
        put_run(set, from, to);
    }
}

// The same for the pairs of a part.
pub fn put_pairs(set: &mut [u32], base: u32, part: &[u32])
    requires { length set.old ≡ window_words }
    ensures { Put set.old set.new (λ d. in_pairs (base + d) part.now) }
{
    for pair in part.chunks_exact(2) {
        put_range(set, base, pair[0], pair[1]);
    }
}
