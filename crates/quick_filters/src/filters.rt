// Filters: sets of 32,768 bits, three for each member. Where one of its bits is clear, a codepoint is no member.
ghost use Rattle.std.specs.Prelude.{◌≡◌, ◌+◌, ◌<◌, length};
ghost use Rattle.quick_filters.specs.Filter.{filter_words, place_of, scattered, holds, Noted, RunNoted, RunsNoted};

use bit_sets::{has, put};

// One bit of c.
fn place(c: u32) -> u32
    ensures { (result ≡ place_of c) × (result < 32768) }
{
    (c % 32768 + c / 32768 * 12345) % 32768
}

// The other bits: half of what the sum of two multiples leaves, of the low sixteen bits and of those above them.
fn strewn_place(c: u32, low: u32, high: u32) -> u32
    requires { low + high < 65536 }
    ensures { (result ≡ scattered low high c) × (result < 32768) }
{
    (c % 65536 * low + c / 65536 * high) % 65536 / 2
}

// Whether c may be a member.
pub fn may_hold(set: &[u32], c: u32) -> bool
    requires { length set.now ≡ filter_words }
    ensures { result ≡ holds set.now c }
{
    if !has(set, place(c)) {
        return false;
    }
    if !has(set, strewn_place(c, 40503, 10007)) {
        return false;
    }
    has(set, strewn_place(c, 25717, 18211))
}

// Makes c a member.
pub fn note(set: &mut [u32], c: u32)
    requires { length set.old ≡ filter_words }
    ensures { Noted set.old set.new c }
{
    put(set, place(c));
    put(set, strewn_place(c, 40503, 10007));
    put(set, strewn_place(c, 25717, 18211));
}

// Makes the codepoints from `from` to `to` members.
fn note_run(set: &mut [u32], from: u32, to: u32)
    requires { length set.old ≡ filter_words }
    ensures { RunNoted set.old set.new from to }
{
    for c in from..to {
        note(set, c);
    }
    note(set, to);
}

// Makes members of what the entries of a part cover, each of `step` words, if it is no more than `most` codepoints in all.
pub fn note_runs(part: &[u32], step: usize, last: usize, set: &mut [u32], most: u32) -> bool
    requires { (last < step) × (length set.old ≡ filter_words) }
    ensures { RunsNoted step last part.now set.old set.new result }
{
    let mut left = most;
    for entry in part.chunks_exact(step) {
        let from = entry[0];
        let to = entry[last];
        if to < from {
            return false;
        }
        if left <= to - from {
            return false;
        }
        left = left - (to - from) - 1;
        note_run(set, from, to);
    }
    true
}
