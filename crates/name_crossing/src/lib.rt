// The name call and the label call for C and Rust, each with the promise of the call that it hands on and its answer as a struct of plain numbers. The crate
// `boundary` gives them their names outside.
#![tactic(auto)]

ghost use Rattle.name_crossing.specs.NameCrossing.{NameCrosses, LabelCrosses};

use fields::{WanlophengLabel, WanlophengName};

// Normalises a name. With a setting other than 0, labels of restricted groups are refused as 17.
pub fn cross_name(
    input: &[u32],
    words: &[u32],
    setting: u32,
    answer: &mut [u32],
    work: &mut [u32],
) -> WanlophengName
    ensures { NameCrosses setting words.now input.now answer.old answer.new work.old work.new result }
{
    let found = name_call::name(input, words, setting, answer, work);
    WanlophengName::from(found)
}

// Normalises one label, with the same setting.
pub fn cross_label(
    input: &[u32],
    words: &[u32],
    setting: u32,
    answer: &mut [u32],
    work: &mut [u32],
) -> WanlophengLabel
    ensures { LabelCrosses setting words.now input.now answer.old answer.new work.old work.new result }
{
    let found = label_call::label(input, words, setting, answer, work);
    WanlophengLabel::from(found)
}
