// Rule 1 for pairs, triples and items: every codepoint named is a Unicode scalar value.
#![tactic(auto)]

ghost use Rattle.std.specs.Prelude.{◌≡◌};
ghost use Rattle.lists.specs.Lists.{all};
ghost use Rattle.table.specs.Spans.{Fits, within};
ghost use Rattle.scalar.specs.Scalar.{is_scalar};
ghost use Rattle.soundness.specs.Scalars.{scalars_between};
ghost use Rattle.sound_parts.specs.Parts.{all_pairs, all_triples, scalar_triple, behind_count, ExcludedFits};

use scalar::is_scalar;
use table::Span;

// Whether every codepoint from first to last is a scalar value.
fn scalars_between(first: u32, last: u32) -> bool
    ensures { result ≡ scalars_between first last }
{
    last <= 0x10FFFF && (last < 0xD800 || 0xDFFF < first)
}

// Whether the pairs first, last are of scalar values.
pub fn scalar_pairs(part: &[u32]) -> bool
    ensures { result ≡ all_pairs scalars_between part.now }
{
    let (pairs, _) = part.as_chunks::<2>();
    pairs
        .iter()
        .all(|&[first, last]| scalars_between(first, last))
}

// Whether the triples first, last, class are of scalar values.
fn scalar_triples(part: &[u32]) -> bool
    ensures { result ≡ all_triples scalar_triple part.now }
{
    let (triples, _) = part.as_chunks::<3>();
    triples
        .iter()
        .all(|&[first, last, _]| scalars_between(first, last))
}

// Whether the items are scalar values.
pub fn scalar_items(items: &[u32]) -> bool
    ensures { result ≡ all is_scalar items.now }
{
    items.iter().all(|&c| is_scalar(c))
}

// The same of the pairs of a part, and of the exclusions behind their count and the classes.
pub fn scalar_pairs_of(words: &[u32], s: Span) -> bool
    requires { Fits words.now s }
    ensures { result ≡ all_pairs scalars_between (within s words.now) }
{
    scalar_pairs(s.of(words))
}

pub fn scalar_excluded(words: &[u32], s: Span) -> bool
    requires { ExcludedFits words.now s }
    ensures { result ≡ all is_scalar (within (behind_count s) words.now) }
{
    scalar_items(&words[s.from + 1..s.to])
}

pub fn scalar_classes(words: &[u32], s: Span) -> bool
    requires { Fits words.now s }
    ensures { result ≡ all_triples scalar_triple (within s words.now) }
{
    scalar_triples(s.of(words))
}
