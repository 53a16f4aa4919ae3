// The step at one codepoint that no emoji sequence takes.
ghost use Rattle.std.specs.Prelude.{cond};
ghost use Rattle.std.proofs.Math.Option.{none};
ghost use Rattle.table.specs.Layout.{most_items, the_table};
ghost use Rattle.table.specs.Lookup.{items_of};
ghost use Rattle.sections.specs.Laid.{Laid};
ghost use Rattle.table.specs.Part.{ItemsFound};
ghost use Rattle.tokens.specs.Scan.{codepoint_step};
ghost use Rattle.tokens.specs.Single.{SingleFound};

use sections::Sections;
use sections::lookup::{is_ignored, is_valid, mapped_items};
use table::Span;

// What becomes of the codepoint: it is kept, gives the items that stand at a place, gives nothing, or is disallowed.
#[derive(Clone, Copy)]
pub enum Single {
    Valid,
    Mapped(Span),
    Ignored,
    Disallowed,
}

// The items that the codepoint is mapped to, asked for where it is not valid.
fn items_unless(words: &[u32], ix: Sections, valid: bool, c: u32) -> Option<Span>
    requires { Laid words.now ix }
    ensures { ItemsFound words.now most_items (cond valid none (items_of (the_table words.now).mapped c)) result }
{
    if valid {
        return None;
    }
    mapped_items(words, ix, c)
}

// "valid is kept, else mapped gives its items, else ignored gives nothing, else 5"
pub fn alone(words: &[u32], ix: Sections, c: u32) -> Single
    requires { Laid words.now ix }
    ensures { SingleFound words.now c (codepoint_step (the_table words.now) c) result }
{
    let valid = is_valid(words, ix, c);
    let items = items_unless(words, ix, valid, c);
    match items {
        Some(s) => Single::Mapped(s),
        None => {
            if valid {
                return Single::Valid;
            }
            if is_ignored(words, ix, c) {
                return Single::Ignored;
            }
            Single::Disallowed
        }
    }
}
