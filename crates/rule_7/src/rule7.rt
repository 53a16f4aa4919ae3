// Rule 7, on composition pairs.
ghost use Rattle.std.specs.Prelude.{◌≡◌};
ghost use Rattle.lists.specs.Lists.{any};
ghost use Rattle.sections.specs.Laid.{Laid};
ghost use Rattle.table.specs.Layout.{the_table};
ghost use Rattle.soundness.specs.Pairs.{is_hangul_pair, rule7};
ghost use Rattle.records.specs.Left.{heads_left};
ghost use Rattle.rule_7.specs.Pairs.{pair_of, same_pair, same_pair_in, pair_fits, pairs_fit};

use records::Heads;
use sections::Sections;
use sections::lookup::is_excluded;
use text::class::class_of;
use text::hangul::{makes_closed, makes_open};

// Whether a decomposition is a composition pair.
pub fn is_pair(words: &[u32], ix: Sections, head: u32, items: &[u32]) -> bool
    requires { Laid words.now ix }
    ensures { result ≡ pair_of (the_table words.now) head items.now }
{
    if items.len() != 2 {
        return false;
    }
    if is_excluded(words, ix, head) {
        return false;
    }
    if class_of(words, ix, head) != 0 {
        return false;
    }
    class_of(words, ix, items[0]) == 0
}

// Whether a decomposition is a composition pair with the items. The sections are lent, since most have other items: none is copied for them.
fn same_pair(words: &[u32], ix: &Sections, items: &[u32], head: u32, others: &[u32]) -> bool
    requires { Laid words.now ix.now }
    ensures { result ≡ same_pair (the_table words.now) items.now head others.now }
{
    items == others && is_pair(words, *ix, head, others)
}

// Whether one of the records is a composition pair with the items. Most have other items, and are told by these alone.
fn any_pair(words: &[u32], ix: Sections, part: &[u32], items: &[u32]) -> bool
    requires { Laid words.now ix }
    ensures { result ≡ any (same_pair_in (the_table words.now) items.now) (heads_left part.now) }
{
    Heads::of(part).any(|(head, others)| same_pair(words, &ix, items, head, others))
}

// Whether the items are a Hangul pair.
fn is_hangul_pair(items: &[u32]) -> bool
    ensures { result ≡ is_hangul_pair items.now }
{
    if items.len() < 2 {
        return false;
    }
    let a = items[0];
    let b = items[1];
    if makes_open(a, b) {
        return true;
    }
    makes_closed(a, b)
}

// Whether a decomposition is no composition pair, or is one, no Hangul pair and none of those behind it.
fn pair_fits(words: &[u32], ix: Sections, head: u32, items: &[u32], behind: &[u32]) -> bool
    requires { Laid words.now ix }
    ensures { result ≡ pair_fits (the_table words.now) head items.now (heads_left behind.now) }
{
    if !is_pair(words, ix, head, items) {
        return true;
    }
    if is_hangul_pair(items) {
        return false;
    }
    !any_pair(words, ix, behind, items)
}

// Whether no two composition pairs of the records are equal, and none is a Hangul pair.
fn pairs_fit(words: &[u32], ix: Sections, part: &[u32]) -> bool
    requires { Laid words.now ix }
    ensures { result ≡ pairs_fit (the_table words.now) (heads_left part.now) }
{
    let mut left = Heads::of(part);
    while let Some((head, items)) = left.next() {
        if !pair_fits(words, ix, head, items, left.part) {
            return false;
        }
    }
    true
}

// Rule 7: no two composition pairs are equal, and none is a Hangul pair.
pub fn keeps_rule7(words: &[u32], ix: Sections) -> bool
    requires { Laid words.now ix }
    ensures { result ≡ rule7 (the_table words.now) }
{
    pairs_fit(words, ix, ix.decompositions.of(words))
}
