// Trimmed input, without a copy (02, Item 4): the part of the caller's slice without the blanks at its two ends.
#![tactic(auto)]

ghost use Rattle.std.specs.Prelude.{◌≡◌, length};
ghost use Rattle.trim.specs.Trim.{is_blank, start_of, off_back, remaining, Remains};

// Where a part of a slice starts, and its length: C takes it as it is, so it is no span with an end.
#[repr(C)]
#[derive(Clone, Copy)]
pub struct Part {
    pub start: usize,
    pub length: usize,
}

// 9, A, D and 20 are blanks.
#[tactic(auto, unfolding(crate::specs::Trim::is_blank))]
pub fn is_blank(c: u32) -> bool
    ensures { result ≡ is_blank c }
{
    c == 0x9 || c == 0xA || c == 0xD || c == 0x20
}

// The place of the first codepoint that is no blank, the length where there is none: a place to cut at, so there always is one.
fn start_of(input: &[u32]) -> usize
    ensures { result ≡ start_of input.now }
{
    for (i, &c) in input.iter().enumerate() {
        if !is_blank(c) {
            return i;
        }
    }
    input.len()
}

// The length that remains when the blanks at the back are taken off.
fn length_of(rest: &[u32]) -> usize
    ensures { result ≡ length (off_back rest.now) }
{
    for i in (0..rest.len()).rev() {
        if !is_blank(rest[i]) {
            return i + 1;
        }
    }
    0
}

// The part that remains.
pub fn trimmed(input: &[u32]) -> &[u32]
    ensures { result.now ≡ remaining input.now }
{
    let start = start_of(input);
    let rest = &input[start..];
    let n = length_of(rest);
    &rest[..n]
}

// Where the part that remains starts, and its length.
pub fn part_of(input: &[u32]) -> Part
    ensures { Remains input.now result.start result.length }
{
    let start = start_of(input);
    let length = length_of(&input[start..]);
    Part { start, length }
}
