// Combining classes.
ghost use Rattle.sections.specs.Laid.{Laid};
ghost use Rattle.table.specs.Layout.{the_table};
ghost use Rattle.text.specs.Classes.{ClassOf};

use crate::hangul;
use sections::Sections;

// The combining class of c: 0 for syllables and jamo, before any entry of the table.
pub fn class_of(words: &[u32], ix: Sections, c: u32) -> u32
    requires { Laid words.now ix }
    ensures { ClassOf (the_table words.now) c result }
{
    if hangul::is_syllable(c) {
        return 0;
    }
    if hangul::is_jamo(c) {
        return 0;
    }
    sections::lookup::class_entry(words, ix, c)
}
