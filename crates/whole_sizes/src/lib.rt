// Walks over the words of one section of a table: wholes, one behind the other, and the single record of the exclusions.
#![tactic(auto)]

ghost use Rattle.std.specs.Prelude.{◌≡◌};
ghost use Rattle.lists.specs.Lists.{is_some};
ghost use Rattle.table.specs.Layout.{excluded};
ghost use Rattle.whole_sizes.specs.Wholes.{SizeOf, whole_size, wholes_fit};

// The number of words of the whole that `rest` begins with.
fn whole_size(rest: &[u32]) -> Option<usize>
    ensures { SizeOf (whole_size rest.now) result }
{
    if rest.len() < 2 {
        return None;
    }
    let n = rest[0] as usize;
    if n > rest.len() - 2 {
        return None;
    }
    let m = rest[n + 1] as usize;
    if m > rest.len() - 2 - n {
        return None;
    }
    Some(n + 2 + m)
}

// Whether the words are wholes, one behind the other.
pub fn wholes_fit(part: &[u32]) -> bool
    ensures { result ≡ wholes_fit part.now }
{
    let mut at: usize = 0;
    // by hand: a record's length is its own, and the place goes on by it
    while at < part.len() {
        let Some(size) = whole_size(&part[at..]) else {
            return false;
        };
        at += size;
    }
    true
}

// Whether the words are a single record: count, items.
pub fn excluded_fit(part: &[u32]) -> bool
    ensures { result ≡ is_some (excluded part.now) }
{
    if part.len() == 0 {
        return false;
    }
    part[0] as usize == part.len() - 1
}
