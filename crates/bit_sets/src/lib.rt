// Sets of places, a bit for each, 32 in a word; and windows of 10000 codepoints (hexadecimal), of which a set has a place for each.
#![tactic(auto)]

pub mod ranges;

ghost use Rattle.std.specs.Prelude.{◌≡◌, ◌&&◌, ◌+◌, ◌*◌, ◌<◌, ◌≤◌, length, leb, ltb, eqb};
ghost use Rattle.lists.specs.Lists.{mem};
ghost use Rattle.bit_sets.specs.Sets.{has, Put, window_words};

const WINDOW: u32 = 0x10000;

// Whether the set holds the place d.
pub fn has(set: &[u32], d: u32) -> bool
    requires { d < length set.now * 32 }
    ensures { result ≡ has set.now d }
{
    let i = (d / 32) as usize;
    (set[i] >> (d % 32)) % 2 == 1
}

// Puts the place d into the set.
pub fn put(set: &mut [u32], d: u32)
    requires { d < length set.old * 32 }
    ensures { Put set.old set.new (λ e. eqb e d) }
{
    let i = (d / 32) as usize;
    set[i] = set[i] | (1 << (d % 32));
}

// Puts c into the set, if it is in the window.
pub fn put_point(set: &mut [u32], base: u32, c: u32)
    requires { length set.old ≡ window_words }
    ensures { Put set.old set.new (λ d. eqb (base + d) c) }
{
    if c < base {
        return;
    }
    let d = c - base;
    if d < WINDOW {
        put(set, d);
    }
}

// Puts those of the items into the set that are in the window.
pub fn put_points(set: &mut [u32], base: u32, items: &[u32])
    requires { length set.old ≡ window_words }
    ensures { Put set.old set.new (λ d. mem (base + d) items.now) }
{
    for &c in items {
        put_point(set, base, c);
    }
}
