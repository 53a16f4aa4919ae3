// Rule 3, on valid codepoints.

ghost use Rattle.std.specs.Prelude.{◌≡◌};
ghost use Rattle.lists.specs.Lists.{all};
ghost use Rattle.table.specs.Layout.{the_table};
ghost use Rattle.sections.specs.Laid.{Laid};
ghost use Rattle.sound_parts.specs.Parts.{is_valid};
ghost use Rattle.soundness.specs.Valid.{rule3};

use records::Heads;
use sections::Sections;
use sections::lookup::is_valid;

// Whether the items are valid.
pub fn valid_items(words: &[u32], ix: Sections, items: &[u32]) -> bool
    requires { Laid words.now ix }
    ensures { result ≡ all (is_valid (the_table words.now)) items.now }
{
    items.iter().all(|&c| is_valid(words, ix, c))
}

// Rule 3: every item of a mapping is valid.
pub fn keeps_rule3(words: &[u32], ix: Sections) -> bool
    requires { Laid words.now ix }
    ensures { result ≡ rule3 (the_table words.now) }
{
    Heads::of(ix.mapped.of(words)).all(|(_, items)| valid_items(words, ix, items))
}
