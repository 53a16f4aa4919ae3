// Writing a line. specs/Writing.antt states what is written. Each function writes at the front of what it is lent, and answers
// how many bytes it wrote.
ghost use Rattle.std.specs.Prelude.{◌≡◌, ◌+◌, ◌*◌, ◌≤◌, ◌<◌, length};
ghost use Rattle.line_writing.specs.Writing.{spaced, ok_line, no_line, end_line, bad_line, most_no_line, most_end_line};
ghost use Rattle.buffers.specs.Writes.{Writes};
ghost use Rattle.line_writing.specs.Promise.{SpacedRoom};
ghost use Rattle.lists.specs.Lists.{joined_map};

use numerals::write_numeral;

// A blank, and the digits of n.
fn write_spaced(n: u64, base: u64, out: &mut [u8]) -> usize
    requires { SpacedRoom base n out.old }
    ensures { Writes (spaced base n) out.old out.new result }
{
    out[0] = b' ';
    let k = write_numeral(n, base, &mut out[1..]);
    1 + k
}

// A fixed word.
pub fn write_word(word: &[u8], out: &mut [u8]) -> usize
    requires { length word.now ≤ length out.old }
    ensures { Writes word.now out.old out.new result }
{
    buffers::copy_into(out, word);
    word.len()
}

// Each number in hex, a blank before it.
fn write_numbers(numbers: &[u32], out: &mut [u8]) -> usize
    requires { 9 * length numbers.now ≤ length out.old }
    ensures writes { Writes (joined_map (spaced 16) numbers.now) out.old out.new result }
    ensures upper_bound { result ≤ 9 * length numbers.now }
{
    let mut at = 0;
    for &n in numbers {
        let k = write_spaced(u64::from(n), 16, &mut out[at..]);
        at += k;
    }
    at
}

// The line for an accepted name.
pub fn write_ok(answer: &[u32], out: &mut [u8]) -> usize
    requires { 9 * length answer.now + 3 ≤ length out.old }
    ensures { Writes (ok_line answer.now) out.old out.new result }
{
    let word = write_word(b"ok", out);
    let k = write_numbers(answer, &mut out[word..]);
    let at = word + k;
    out[at] = b'\n';
    at + 1
}

// The line for a refused name.
pub fn write_no(number: u64, place: u64, out: &mut [u8]) -> usize
    requires { most_no_line ≤ length out.old }
    ensures { Writes (no_line number place) out.old out.new result }
{
    let word = write_word(b"no", out);
    let k = write_spaced(number, 10, &mut out[word..]);
    let first = word + k;
    let l = write_spaced(place, 10, &mut out[first..]);
    let at = first + l;
    out[at] = b'\n';
    at + 1
}

// The last line.
pub fn write_end(names: u64, out: &mut [u8]) -> usize
    requires { most_end_line ≤ length out.old }
    ensures { Writes (end_line names) out.old out.new result }
{
    let word = write_word(b"end", out);
    let k = write_spaced(names, 10, &mut out[word..]);
    let at = word + k;
    out[at] = b'\n';
    at + 1
}

// The line for a line of input that is unreadable, or for no table.
pub fn write_bad(out: &mut [u8]) -> usize
    requires { 4 ≤ length out.old }
    ensures { Writes bad_line out.old out.new result }
{
    write_word(b"bad\n", out)
}
