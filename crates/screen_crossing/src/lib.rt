// The screen form for C and Rust, with the promise of the call that it hands on and its answer as a struct of plain numbers. The crate `boundary` gives it
// its name outside.
#![tactic(auto)]

ghost use Rattle.screen_crossing.specs.ScreenCrossing.{ScreenCrosses};

use fields::WanlophengName;

// Writes the screen form of a name. `greek` is the number of the Greek group; one beyond the last group means none.
pub fn cross_screen(
    input: &[u32],
    words: &[u32],
    greek: u32,
    setting: u32,
    answer: &mut [u32],
    work: &mut [u32],
) -> WanlophengName
    ensures { ScreenCrosses greek setting words.now input.now answer.old answer.new work.old work.new result }
{
    let told = screen::screen(input, words, greek, setting, answer, work);
    WanlophengName::from(told)
}
