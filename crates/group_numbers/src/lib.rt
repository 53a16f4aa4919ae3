// The numbers of the groups: 0, or that of a component.
#![tactic(auto)]

ghost use Rattle.std.specs.Prelude.{◌≡◌, true, ◌<◌, get_or};
ghost use Rattle.table.specs.Layout.{most_groups};
ghost use Rattle.group_numbers.specs.Batch.{relabelled, Numbers, Numbered, United, Met};

// So many members are put in order at a time.
pub const BATCH: usize = 1024;

// Claims at the places of a batch: where an end, not included, is above 0, a group, the owner, holds the numbers of the batch from that place to
// that end. Two arrays and not one of pairs: a pair of u64 and u8 would take 16 bytes where these take 9.
#[derive(Drop)]
pub struct Claims {
    pub ends: [u64; BATCH],
    pub owners: [u8; BATCH],
}

// The number a becomes b.
fn relabel(k: &mut [u32], a: u32, b: u32)
    ensures { k.new ≡ relabelled a b k.old }
{
    for x in k.iter_mut() {
        if *x == a {
            *x = b;
        }
    }
}

// Gives group n a number of its own, if it has none.
fn number(k: &mut [u32], n: usize)
    requires numbers { Numbers k.old }
    requires n_lt_most_groups { n < most_groups }
    ensures { Numbered k.old k.new n }
{
    if k[n] == 0 {
        k[n] = n as u32 + 1;
    }
}

// Gives groups m and n, which have numbers, one.
pub fn unite(k: &mut [u32], m: usize, n: usize)
    requires numbers { Numbers k.old }
    requires m_lt_most_groups { (m < most_groups) × (n < most_groups) }
    requires nonzero { (0 < get_or k.old m 0) × (0 < get_or k.old n 0) }
    ensures { United k.old k.new m n }
{
    let a = k[m];
    let b = k[n];
    if a != b {
        relabel(k, a, b);
    }
}

// Gives group n a number, and if `held` one with group m, which then has one.
pub fn meet(k: &mut [u32], held: bool, m: usize, n: usize)
    requires numbers { Numbers k.old }
    requires m_lt_most_groups { (m < most_groups) × (n < most_groups) }
    requires nonzero { held ≡ true → 0 < get_or k.old m 0 }
    ensures { Met k.old k.new m held n }
{
    number(k, n);
    if held {
        unite(k, m, n);
    }
}
