// The part of an input without the blanks at its two ends (02, Item 4): where it starts, and its length.
ghost use Rattle.trim.specs.Trim.{Remains};

use trim::Part;

#[unsafe(no_mangle)]
pub extern "C" fn wanlopheng_trim(input: &[u32]) -> Part
    ensures { Remains input.now result.start result.length }
{
    trim::part_of(input)
}
