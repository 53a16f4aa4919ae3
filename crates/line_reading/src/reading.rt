// Reading a line. specs/Reading.antt states what it is read as.
ghost use Rattle.std.specs.Prelude.{◌≡◌, true, ◌+◌, ◌≤◌, ◌<◌, length};
ghost use Rattle.line_reading.specs.Reading.{most_numbers, is_digit, digit_value};
ghost use Rattle.line_reading.specs.Promise.{number_answer, Reads};
ghost use Rattle.line_reading.specs.Reading.{first_at};

use crate::MOST_LINE;

// Whether b is an upper-case hex digit.
fn is_digit(b: u8) -> bool
    ensures { result ≡ is_digit b }
{
    (48 <= b && b <= 57) || (65 <= b && b <= 70)
}

// What a digit stands for.
fn digit_value(b: u8) -> u32
    requires { is_digit b ≡ true }
    ensures value { result ≡ digit_value b }
    ensures upper_bound { result < 16 }
{
    if b <= 57 {
        u32::from(b - 48)
    } else {
        u32::from(b - 55)
    }
}

// The number that a word spells: 1 to 8 digits.
fn read_number(word: &[u8]) -> Option<u32>
    ensures { result ≡ number_answer word.now }
{
    if word.len() == 0 {
        return None;
    }
    if word.len() > 8 {
        return None;
    }
    let mut value: u32 = 0;
    for &b in word {
        if !is_digit(b) {
            return None;
        }
        value = 16 * value + digit_value(b);
    }
    Some(value)
}

// The place of the first b, or the length where there is none: where to cut, so no Option.
pub fn find(s: &[u8], b: u8) -> usize
    ensures { result ≡ first_at b s.now }
{
    for (i, &x) in s.iter().enumerate() {
        if x == b {
            return i;
        }
    }
    s.len()
}

// The numbers of a line, at the front of `out`; `None` where it is unreadable.
pub fn read_line(line: &[u8], out: &mut [u32]) -> Option<usize>
    requires { most_numbers ≤ length out.old }
    ensures { Reads line.now out.old out.new result }
{
    if line.len() == 0 {
        return Some(0);
    }
    if line.len() > MOST_LINE {
        return None;
    }
    let mut at = 0;
    let mut n = 0;
    // by hand: the step is the word's own length
    loop {
        let end = at + find(&line[at..], b' ');
        let value = read_number(&line[at..end])?;
        out[n] = value;
        n += 1;
        if end == line.len() {
            return Some(n);
        }
        at = end + 1;
    }
}
