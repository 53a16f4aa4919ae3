// The screen form (02, Item 1) for C and Rust.
ghost use Rattle.screen_crossing.specs.ScreenCrossing.{ScreenCrosses};

use fields::WanlophengName;
use screen_crossing::cross_screen;

// Writes the screen form of a name. `greek` is the number of the Greek group; one beyond the last group means none.
#[unsafe(no_mangle)]
pub extern "C" fn wanlopheng_screen(
    input: &[u32],
    words: &[u32],
    greek: u32,
    setting: u32,
    answer: &mut [u32],
    work: &mut [u32],
) -> WanlophengName
    ensures { ScreenCrosses greek setting words.now input.now answer.old answer.new work.old work.new result }
{
    cross_screen(input, words, greek, setting, answer, work)
}
