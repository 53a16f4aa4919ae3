// The octets of a scalar value, put behind others: a length mark and payload bits make a lead octet, the mark 10 and six payload bits a tail
// octet. specs/Storing.antt has what is promised.
#![tactic(auto)]

ghost use Rattle.std.specs.Prelude.{◌≡◌, true, ◌+◌, ◌<◌, ◌^◌};
ghost use Rattle.scalar.specs.Scalar.{is_scalar};
ghost use Rattle.utf8_scheme.specs.Scheme.{tail};
ghost use Rattle.utf8_encode.specs.Storing.{Stores, Appends};

// Stores an element at place n, if there is room, and answers the next place.
pub fn put<T: Copy>(answer: &mut [T], n: usize, element: T) -> usize
    requires { n + 1 < 2 ^ 64 }
    ensures { Stores answer.old answer.new n element result }
{
    if n < answer.len() {
        answer[n] = element;
    }
    n + 1
}

// Stores a tail octet with the six lowest bits of c.
fn put_tail(answer: &mut [u8], n: usize, c: u32) -> usize
    requires { n + 1 < 2 ^ 64 }
    ensures { Stores answer.old answer.new n (tail c) result }
{
    put(answer, n, (c & 0x3F | 0b10 << 6) as u8)
}

// Puts the octets of c behind the first n bytes, as far as there is room, and answers the length with them.
pub fn append(answer: &mut [u8], n: usize, c: u32) -> usize
    requires { (is_scalar c ≡ true) × (n + 4 < 2 ^ 64) }
    ensures { Appends answer.old answer.new n c result }
{
    if c < 0x80 {
        return put(answer, n, c as u8);
    }
    if c < 0x800 {
        let m = put(answer, n, (c >> 6 | 0b110 << 5) as u8);
        return put_tail(answer, m, c);
    }
    if c < 0x10000 {
        let m = put(answer, n, (c >> 12 | 0b1110 << 4) as u8);
        let m = put_tail(answer, m, c >> 6);
        return put_tail(answer, m, c);
    }
    let m = put(answer, n, (c >> 18 | 0b11110 << 3) as u8);
    let m = put_tail(answer, m, c >> 12);
    let m = put_tail(answer, m, c >> 6);
    put_tail(answer, m, c)
}
