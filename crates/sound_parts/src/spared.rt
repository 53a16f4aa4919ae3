// What rule 6 asks of one head and of the classes, by the words.
ghost use Rattle.std.specs.Prelude.{◌≡◌, ◌&&◌, leb};
ghost use Rattle.table.specs.Spans.{Fits, within};
ghost use Rattle.soundness.specs.Pairs.{plain_head};
ghost use Rattle.sound_parts.specs.Parts.{all_triples, spares_triple};

use table::Span;
use text::hangul::{is_jamo, is_syllable};

// Whether c is neither ASCII nor a syllable nor a jamo.
pub fn plain_head(c: u32) -> bool
    ensures { result ≡ plain_head c }
{
    0x80 <= c && !is_syllable(c) && !is_jamo(c)
}

// Whether the codepoints from first to last and those from a to b have one in common.
fn meets(first: u32, last: u32, a: u32, b: u32) -> bool
    ensures { result ≡ (leb first b && leb a last) }
{
    first <= b && a <= last
}

// Whether an entry gives no jamo and no syllable a class other than 0.
fn spares_hangul(first: u32, last: u32, class: u32) -> bool
    ensures { result ≡ spares_triple first last class }
{
    class == 0
        || !(meets(first, last, 0x1100, 0x1112)
            || meets(first, last, 0x1161, 0x1175)
            || meets(first, last, 0x11A8, 0x11C2)
            || meets(first, last, 0xAC00, 0xD7A3))
}

// Whether the entries of a part of the words give no jamo and no syllable a class other than 0.
pub fn classes_spare_of(words: &[u32], s: Span) -> bool
    requires { Fits words.now s }
    ensures { result ≡ all_triples spares_triple (within s words.now) }
{
    let (triples, _) = s.of(words).as_chunks::<3>();
    triples
        .iter()
        .all(|&[first, last, class]| spares_hangul(first, last, class))
}
