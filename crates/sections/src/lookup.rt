// Lookups over the words of a table and the places of its sections.
ghost use Rattle.std.specs.Prelude.{◌≡◌, true};
ghost use Rattle.lists.specs.Lists.{mem};
ghost use Rattle.table.specs.Layout.{most_items, most_parts, the_table};
ghost use Rattle.table.specs.Lookup.{in_ranges, items_of, whole_of, should_escape, in_quick_check};
ghost use Rattle.table.specs.Part.{in_pairs, class_among, heads_in, ClassFound, ItemsFound, WholeFound};
ghost use Rattle.table.specs.Spans.{within, Fits};
ghost use Rattle.apart.specs.Apart.{Apart};
ghost use Rattle.heads.specs.Heads.{HeadsKnown};
ghost use Rattle.sections.specs.Known.{PairsKnown};
ghost use Rattle.sections.specs.Laid.{Laid};

use crate::Sections;
use apart_lookup::{class_apart, in_apart, mem_apart};
use head_search::items_by;
use place_marks::Marks;
use table::lookup::{class_in, in_pairs, mem_in, whole_in_of};
use table::{Span, WholeLists};

// Whether c lies in one of the pairs of a section, by halves where it is known to be sorted.
pub fn in_section(words: &[u32], s: Span, sorted: bool, c: u32) -> bool
    requires { Fits words.now s × PairsKnown (within s words.now) sorted }
    ensures { result ≡ in_pairs c (within s words.now) }
{
    let part = s.of(words);
    if sorted {
        return in_apart(part, c);
    }
    in_pairs(part, c)
}

// The class of the first triple of a section with c in it, or 0.
fn class_section(words: &[u32], s: Span, sorted: bool, c: u32) -> u32
    requires { Fits words.now s × (sorted ≡ true → Apart 3 1 (within s words.now)) }
    ensures { result ≡ class_among c (within s words.now) }
{
    let part = s.of(words);
    if sorted {
        return class_apart(part, c);
    }
    class_in(part, c)
}

// Whether c is one of the items of a section.
fn mem_section(words: &[u32], s: Span, sorted: bool, c: u32) -> bool
    requires { Fits words.now s × (sorted ≡ true → Apart 1 0 (within s words.now)) }
    ensures { result ≡ mem c (within s words.now) }
{
    let part = s.of(words);
    if sorted {
        return mem_apart(part, c);
    }
    mem_in(part, c)
}

// Where the items of the first record of a section with head c stand among the words.
fn items_section(words: &[u32], s: Span, sorted: bool, marks: Marks, c: u32) -> Option<Span>
    requires { Fits words.now s × HeadsKnown (within s words.now) sorted marks }
    ensures { ItemsFound words.now most_items (items_of (heads_in (within s words.now)) c) result }
{
    let items = items_by(s.of(words), sorted, marks, c)?;
    Some(Span {
        from: s.from + items.from,
        to: s.from + items.to,
    })
}

// Whether c is valid.
pub fn is_valid(words: &[u32], ix: Sections, c: u32) -> bool
    requires { Laid words.now ix }
    ensures { result ≡ in_ranges c (the_table words.now).valid }
{
    in_section(words, ix.valid, ix.sorted.valid, c)
}

// Whether c is ignored.
pub fn is_ignored(words: &[u32], ix: Sections, c: u32) -> bool
    requires { Laid words.now ix }
    ensures { result ≡ in_ranges c (the_table words.now).ignored }
{
    in_section(words, ix.ignored, ix.sorted.ignored, c)
}

// Whether c is fenced.
pub fn is_fenced(words: &[u32], ix: Sections, c: u32) -> bool
    requires { Laid words.now ix }
    ensures { result ≡ in_ranges c (the_table words.now).fenced }
{
    in_section(words, ix.fenced, ix.sorted.fenced, c)
}

// Whether c is a combining mark.
pub fn is_mark(words: &[u32], ix: Sections, c: u32) -> bool
    requires { Laid words.now ix }
    ensures { result ≡ in_ranges c (the_table words.now).marks }
{
    in_section(words, ix.marks, ix.sorted.marks, c)
}

// Whether c is a nonspacing mark.
pub fn is_nsm(words: &[u32], ix: Sections, c: u32) -> bool
    requires { Laid words.now ix }
    ensures { result ≡ in_ranges c (the_table words.now).nsm }
{
    in_section(words, ix.nsm, ix.sorted.nsm, c)
}

// The class of c.
pub fn class_entry(words: &[u32], ix: Sections, c: u32) -> u32
    requires { Laid words.now ix }
    ensures { ClassFound (the_table words.now).classes c result }
{
    class_section(words, ix.classes, ix.sorted.classes, c)
}

// Whether c is excluded from composition.
pub fn is_excluded(words: &[u32], ix: Sections, c: u32) -> bool
    requires { Laid words.now ix }
    ensures { result ≡ mem c (the_table words.now).exclusions }
{
    let s = ix.exclusions;
    let items = Span {
        from: s.from + 1,
        to: s.to,
    };
    mem_section(words, items, ix.sorted.exclusions, c)
}

// Where the items that c is mapped to stand.
pub fn mapped_items(words: &[u32], ix: Sections, c: u32) -> Option<Span>
    requires { Laid words.now ix }
    ensures { ItemsFound words.now most_items (items_of (the_table words.now).mapped c) result }
{
    items_section(words, ix.mapped, ix.sorted.mapped, ix.starts.mapped, c)
}

// Where the items of the decomposition of c stand.
pub fn decomposition_items(words: &[u32], ix: Sections, c: u32) -> Option<Span>
    requires { Laid words.now ix }
    ensures { ItemsFound words.now most_parts (items_of (the_table words.now).decompositions c) result }
{
    items_section(
        words,
        ix.decompositions,
        ix.sorted.decompositions,
        ix.starts.decompositions,
        c,
    )
}

// Where the lists of the whole of c stand, if c is confused.
pub fn whole_of(words: &[u32], ix: Sections, c: u32) -> Option<WholeLists>
    requires { Laid words.now ix }
    ensures { WholeFound words.now (whole_of (the_table words.now).wholes c) result }
{
    whole_in_of(words, ix.wholes, c)
}

// Whether c is put in braces where it is shown.
pub fn should_escape(words: &[u32], ix: Sections, c: u32) -> bool
    requires { Laid words.now ix }
    ensures { result ≡ should_escape (the_table words.now) c }
{
    in_section(words, ix.escape, ix.sorted.escape, c)
}

// Whether c is in the quick-check set.
pub fn in_quick_check(words: &[u32], ix: Sections, c: u32) -> bool
    requires { Laid words.now ix }
    ensures { result ≡ in_quick_check (the_table words.now) c }
{
    in_section(words, ix.quick, ix.sorted.quick, c)
}
