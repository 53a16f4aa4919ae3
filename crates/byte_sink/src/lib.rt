// Bytes put one behind the other into a lent buffer, as far as there is room. What does not fit is known at the end, and does not stop
// the writer.
#![tactic(auto)]

ghost use Rattle.std.specs.Prelude.{◌≤◌, [], ◌∷◌};
ghost use Rattle.numerals.specs.Numeral.{numeral};
ghost use Rattle.byte_sink.specs.Sinks.{Adds};

use numerals::digit_byte;

// No `Display`: the library's `write!` promises the text where its writer answers Ok, and not that it does so wherever there is room.

// Where the next byte goes; `None` once one found no room: from there on nothing is stored.
#[derive(Clone, Copy)]
pub struct Sink {
    pub at: Option<usize>,
}

// One byte more.
pub fn put(out: &mut [u8], sink: Sink, b: u8) -> Sink
    ensures { Adds out.old out.new (b ∷ []) sink result }
{
    let Some(at) = sink.at else {
        return sink;
    };
    if at < out.len() {
        out[at] = b;
        return Sink { at: Some(at + 1) };
    }
    Sink { at: None }
}

// A word.
pub fn put_word(out: &mut [u8], sink: Sink, word: &[u8]) -> Sink
    ensures { Adds out.old out.new word.now sink result }
{
    let mut r = sink;
    for &b in word {
        r = put(out, r, b);
    }
    r
}

// The digits of n in a base of 2 to 16.
pub fn put_numeral(out: &mut [u8], sink: Sink, n: u64, base: u64) -> Sink
    requires { (2 ≤ base) × (base ≤ 16) }
    ensures { Adds out.old out.new (numeral base n) sink result }
{
    if n < base {
        return put(out, sink, digit_byte(n));
    }
    let front = put_numeral(out, sink, n / base, base);
    put(out, front, digit_byte(n % base))
}
