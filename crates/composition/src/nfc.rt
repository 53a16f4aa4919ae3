// Ordering and composition of a decomposed text.
ghost use Rattle.std.specs.Prelude.{◌≡◌, map, length};
ghost use Rattle.sections.specs.Laid.{Laid};
ghost use Rattle.table.specs.Layout.{the_table};
ghost use Rattle.text.specs.Decomposition.{class_of};
ghost use Rattle.text.specs.Ordering.{order};
ghost use Rattle.composition.specs.Work.{ComposedInto};
ghost use Rattle.unpaired.specs.Unpaired.{Unpaired};

use crate::compose;
use sections::Sections;
use text::class;

// Writes the class of each codepoint of the text beside it.
pub fn put_classes(words: &[u32], ix: Sections, text: &[u32], classes: &mut [u32])
    requires laid { Laid words.now ix }
    requires text_len { length text.now ≡ length classes.old }
    ensures { classes.new ≡ map (class_of (the_table words.now)) text.now }
{
    for (i, &c) in text.iter().enumerate() {
        classes[i] = class::class_of(words, ix, c);
    }
}

// Orders and composes a decomposed text in place; `classes` is as long as the text, whatever stands in it. The answer is the number of
// codepoints that are left, which stand in front.
pub fn ordered_composed(
    words: &[u32],
    ix: Sections,
    unpaired: &mut [u32],
    text: &mut [u32],
    classes: &mut [u32],
) -> usize
    requires laid { Laid words.now ix }
    requires unpaired { Unpaired (the_table words.now) unpaired.old }
    requires text_len { length text.old ≡ length classes.old }
    ensures composed_into { ComposedInto (the_table words.now) (order (the_table words.now) text.old) text.new result }
    ensures unpaired_2 { Unpaired (the_table words.now) unpaired.new }
{
    put_classes(words, ix, text, classes);
    ordering::order(text, classes);
    compose::compose(words, ix, unpaired, text, classes)
}
