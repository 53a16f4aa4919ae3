// Writing numbers in decimal and in upper-case hexadecimal. specs/Numeral.antt states what is written. The bytes stand at the front of
// what is lent, and the answer is how many there are. No `Display`: the library's `write!` promises the text where its writer answers Ok, and
// not that it does so wherever there is room.
#![tactic(auto)]

ghost use Rattle.std.specs.Prelude.{◌≡◌, ◌<◌};
ghost use Rattle.buffers.specs.Writes.{Writes};
ghost use Rattle.numerals.specs.Numeral.{digit_byte, numeral, NumeralRoom};

// The byte of a digit.
pub fn digit_byte(d: u64) -> u8
    requires { d < 16 }
    ensures { result ≡ digit_byte d }
{
    if d < 10 { 48 + d as u8 } else { 55 + d as u8 }
}

// The digits of n in the base, at most 16.
pub fn write_numeral(n: u64, base: u64, out: &mut [u8]) -> usize
    requires { NumeralRoom base n out.old }
    ensures { Writes (numeral base n) out.old out.new result }
{
    if n < base {
        out[0] = digit_byte(n);
        return 1;
    }
    let at = write_numeral(n / base, base, out);
    out[at] = digit_byte(n % base);
    at + 1
}
