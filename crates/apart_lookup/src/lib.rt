// Lookups by halves in sections that are sorted without overlap: pairs, triples and items.
#![tactic(auto)]

ghost use Rattle.std.specs.Prelude.{◌≡◌};
ghost use Rattle.lists.specs.Lists.{mem};
ghost use Rattle.table.specs.Part.{in_pairs, class_among};
ghost use Rattle.apart.specs.Apart.{Apart};

use halving::rank;

// Whether c lies in one of the pairs first, last of a section that is sorted without overlap.
pub fn in_apart(part: &[u32], c: u32) -> bool
    requires { Apart 2 1 part.now }
    ensures { result ≡ in_pairs c part.now }
{
    let r = rank(part, 2, c);
    if r == 0 {
        return false;
    }
    c <= part[(r - 1) * 2 + 1]
}

// The class of the triple first, last, class with c in it, or 0, of such a section.
pub fn class_apart(part: &[u32], c: u32) -> u32
    requires { Apart 3 1 part.now }
    ensures { result ≡ class_among c part.now }
{
    let r = rank(part, 3, c);
    if r == 0 {
        return 0;
    }
    let i = (r - 1) * 3;
    if c <= part[i + 1] {
        return part[i + 2];
    }
    0
}

// Whether c is one of the items, each of which is above those before it.
pub fn mem_apart(items: &[u32], c: u32) -> bool
    requires { Apart 1 0 items.now }
    ensures { result ≡ mem c items.now }
{
    let r = rank(items, 1, c);
    if r == 0 {
        return false;
    }
    c <= items[r - 1]
}
