// Keccak-f[1600] (the Keccak reference; FIPS 202): the steps of a round on the 25 lanes of the state that work on its rows. Lane (x, y) stands
// at x + 5 y.
#![tactic(auto)]

ghost use Rattle.std.specs.Prelude.{◌≡◌, ◌+◌, ◌<◌, ◌≤◌};
ghost use Rattle.std.proofs.lemmas.List.Edits.{sets};
ghost use Rattle.keccak_f.specs.Permutation.{rotate, parities, effects, theta, chi};
ghost use Rattle.keccak_f.specs.Rows.{row_at, theta_row, chi_row};

// The bits of a lane moved n places up; those that leave it come in again below.
pub fn rotate_left(a: u64, n: u64) -> u64
    requires { n < 64 }
    ensures { result ≡ rotate a n }
{
    a.rotate_left(n as u32)
}

// The parity of each column.
fn parities(a: &[u64; 25]) -> [u64; 5]
    ensures { result ≡ parities a.now }
{
    let mut c = [0u64; 5];
    for x in 0..5 {
        c[x] = a[x] ^ a[x + 5] ^ a[x + 10] ^ a[x + 15] ^ a[x + 20];
    }
    c
}

// What is xored into each column: the parities of the columns on both sides.
fn effects(c: &[u64; 5]) -> [u64; 5]
    ensures { result ≡ effects c.now }
{
    let mut d = [0u64; 5];
    for x in 0..5 {
        d[x] = c[(x + 4) % 5] ^ rotate_left(c[(x + 1) % 5], 1);
    }
    d
}

// The row that starts at i.
fn row(a: &[u64; 25], i: usize) -> [u64; 5]
    requires { i + 5 ≤ 25 }
    ensures { result ≡ row_at a.now i }
{
    [a[i], a[i + 1], a[i + 2], a[i + 3], a[i + 4]]
}

// A row put in at i.
fn put_row(b: &mut [u64; 25], i: usize, r: [u64; 5])
    requires { i + 5 ≤ 25 }
    ensures { b.new ≡ sets b.old i r }
{
    b[i..i + 5].copy_from_slice(&r);
}

// What theta makes of a row.
fn theta_row(a: [u64; 5], d: [u64; 5]) -> [u64; 5]
    ensures { result ≡ theta_row a d }
{
    [
        a[0] ^ d[0],
        a[1] ^ d[1],
        a[2] ^ d[2],
        a[3] ^ d[3],
        a[4] ^ d[4],
    ]
}

pub fn theta(a: &[u64; 25]) -> [u64; 25]
    ensures { result ≡ theta a.now }
{
    let c = parities(a);
    let d = effects(&c);
    let mut b = [0u64; 25];
    for y in 0..5 {
        let r = theta_row(row(a, 5 * y), d);
        put_row(&mut b, 5 * y, r);
    }
    b
}

// What chi makes of a row.
fn chi_row(b: [u64; 5]) -> [u64; 5]
    ensures { result ≡ chi_row b }
{
    [
        b[0] ^ !b[1] & b[2],
        b[1] ^ !b[2] & b[3],
        b[2] ^ !b[3] & b[4],
        b[3] ^ !b[4] & b[0],
        b[4] ^ !b[0] & b[1],
    ]
}

pub fn chi(b: &[u64; 25]) -> [u64; 25]
    ensures { result ≡ chi b.now }
{
    let mut a = [0u64; 25];
    for y in 0..5 {
        let r = chi_row(row(b, 5 * y));
        put_row(&mut a, 5 * y, r);
    }
    a
}
