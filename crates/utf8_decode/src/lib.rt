// The sequence that starts the bytes: a lead octet splits into its length mark and its payload bits, a tail octet into the mark 10 and six
// payload bits. specs/Decoding.antt has what is promised.
#![tactic(auto)]

ghost use Rattle.std.specs.Prelude.{◌≡◌, ◌+◌, ◌*◌, ◌<◌, ◌≤◌, length, get_or};
ghost use Rattle.utf8_decode.specs.Decoding.{Tail, DecodedIs};

use scalar::is_scalar;

// The sequence that starts the rest of the bytes: its scalar value and the number of its octets.
#[derive(Clone, Copy)]
pub struct Decoded {
    pub value: u32,
    pub length: usize,
}

// The payload bits of the tail octet at place i, if there is one.
fn tail_bits(rest: &[u8], i: usize) -> Option<u32>
    ensures { Tail (get_or rest.now i 0) result }
{
    if rest.len() <= i {
        return None;
    }
    let b = u32::from(rest[i]);
    if b >> 6 != 0b10 {
        return None;
    }
    Some(b & 0x3F)
}

// x with six bits behind it.
fn with_bits(x: u32, bits: u32) -> u32
    requires { (x < 0x8000) × (bits < 0x40) }
    ensures { result ≡ x * 0x40 + bits }
{
    x << 6 | bits
}

// Two octets, 110xxxxx 10xxxxxx; x are the payload bits of the lead.
fn two(rest: &[u8], x: u32) -> Option<Decoded>
    requires { (get_or rest.now 0 0 ≡ 0xC0 + x) × (x < 0x20) }
    ensures { DecodedIs rest.now result }
{
    let b = tail_bits(rest, 1)?;
    let c = with_bits(x, b);
    if c < 0x80 {
        return None;
    }
    Some(Decoded {
        value: c,
        length: 2,
    })
}

// Three octets, 1110xxxx 10xxxxxx 10xxxxxx.
fn three(rest: &[u8], x: u32) -> Option<Decoded>
    requires { (get_or rest.now 0 0 ≡ 0xE0 + x) × (x < 0x10) }
    ensures { DecodedIs rest.now result }
{
    let a = tail_bits(rest, 1)?;
    let b = tail_bits(rest, 2)?;
    let c = with_bits(with_bits(x, a), b);
    if c < 0x800 {
        return None;
    }
    if !is_scalar(c) {
        return None;
    }
    Some(Decoded {
        value: c,
        length: 3,
    })
}

// Four octets, 11110xxx 10xxxxxx 10xxxxxx 10xxxxxx.
fn four(rest: &[u8], x: u32) -> Option<Decoded>
    requires { (get_or rest.now 0 0 ≡ 0xF0 + x) × (x < 0x8) }
    ensures { DecodedIs rest.now result }
{
    let a = tail_bits(rest, 1)?;
    let b = tail_bits(rest, 2)?;
    let d = tail_bits(rest, 3)?;
    let c = with_bits(with_bits(with_bits(x, a), b), d);
    if c < 0x10000 {
        return None;
    }
    if 0x10FFFF < c {
        return None;
    }
    Some(Decoded {
        value: c,
        length: 4,
    })
}

// The sequence that starts the rest, if one does.
pub fn decode(rest: &[u8]) -> Option<Decoded>
    requires { 1 ≤ length rest.now }
    ensures { DecodedIs rest.now result }
{
    let lead = u32::from(rest[0]);
    if lead >> 7 == 0 {
        return Some(Decoded {
            value: lead,
            length: 1,
        });
    }
    if lead >> 5 == 0b110 {
        return two(rest, lead & 0x1F);
    }
    if lead >> 4 == 0b1110 {
        return three(rest, lead & 0x0F);
    }
    if lead >> 3 == 0b11110 {
        return four(rest, lead & 0x07);
    }
    None
}
