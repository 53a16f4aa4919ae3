// One line of the report: the token's word, its place, and its codepoints. Not by `write!`: the contracts state each byte, also where the room ends.
#![tactic(auto)]

ghost use Rattle.std.specs.Prelude.{◌≡◌};
ghost use Rattle.sections.specs.Laid.{Laid};
ghost use Rattle.table.specs.Layout.{the_table};
ghost use Rattle.numerals.specs.Numeral.{numeral};
ghost use Rattle.byte_sink.specs.Sinks.{Adds};
ghost use Rattle.report_lines.specs.Lines.{spaced, shown, shown_all, kind_word, line_of};

use byte_sink::{Sink, put, put_numeral, put_word};
use sections::Sections;
use sections::lookup::should_escape;

// A blank, and a number in decimal.
fn put_place(out: &mut [u8], sink: Sink, n: usize) -> Sink
    ensures { Adds out.old out.new (spaced (numeral 10 n)) sink result }
{
    let blank = put(out, sink, b' ');
    put_numeral(out, blank, n as u64, 10)
}

// A blank, and a codepoint in upper-case hex, in braces if it should be escaped.
fn put_codepoint(words: &[u32], ix: Sections, c: u32, out: &mut [u8], sink: Sink) -> Sink
    requires { Laid words.now ix }
    ensures { Adds out.old out.new (spaced (shown (the_table words.now) c)) sink result }
{
    let blank = put(out, sink, b' ');
    if should_escape(words, ix, c) {
        let open = put(out, blank, b'{');
        let digits = put_numeral(out, open, u64::from(c), 16);
        return put(out, digits, b'}');
    }
    put_numeral(out, blank, u64::from(c), 16)
}

// The codepoints of a token, a blank before each.
fn put_codepoints(words: &[u32], ix: Sections, text: &[u32], out: &mut [u8], sink: Sink) -> Sink
    requires { Laid words.now ix }
    ensures { Adds out.old out.new (shown_all (the_table words.now) text.now) sink result }
{
    let mut r = sink;
    for &c in text {
        r = put_codepoint(words, ix, c, out, r);
    }
    r
}

// The word for a token.
fn put_kind(out: &mut [u8], sink: Sink, emoji: bool) -> Sink
    ensures { Adds out.old out.new (kind_word emoji) sink result }
{
    if emoji {
        return put_word(out, sink, b"emoji");
    }
    put_word(out, sink, b"text")
}

// The line of a token that stands from `start` up to `end`.
pub fn put_line(
    words: &[u32],
    ix: Sections,
    emoji: bool,
    start: usize,
    end: usize,
    text: &[u32],
    out: &mut [u8],
    sink: Sink,
) -> Sink
    requires { Laid words.now ix }
    ensures { Adds out.old out.new (line_of (the_table words.now) emoji start end text.now) sink result }
{
    let kind = put_kind(out, sink, emoji);
    let from = put_place(out, kind, start);
    let to = put_place(out, from, end);
    let all = put_codepoints(words, ix, text, out, to);
    put(out, all, b'\n')
}
