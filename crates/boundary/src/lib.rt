// The calls for C and Rust, each with the promise of the call that it hands on. include/wanlopheng.h declares them.
// A slice crosses as a pointer and a number of elements, an answer as a struct of plain numbers; so every buffer is a parameter of its own here.
#![tactic(auto)]

pub mod book_calls;
pub mod emoji;
pub mod group;
pub mod hash;
pub mod listing_calls;
pub mod normal;
pub mod report_calls;
pub mod screen_calls;
pub mod trimming;
pub mod utf8_calls;

ghost use Rattle.std.specs.Prelude.{◌≡◌};
ghost use Rattle.soundness.specs.Soundness.{soundness_of};
ghost use Rattle.fields.specs.Fields.{soundness_numbers, soundness_fields};
ghost use Rattle.layout_fault.specs.Fault.{layout_fault};
ghost use Rattle.name_crossing.specs.NameCrossing.{NameCrosses, LabelCrosses};
ghost use Rattle.boundary.specs.Crossing.{UnpackCrosses};

use fields::{WanlophengLabel, WanlophengName, WanlophengSoundness, WanlophengUnpack};
use name_crossing::{cross_label, cross_name};

// Unpacks a table file.
#[unsafe(no_mangle)]
pub extern "C" fn wanlopheng_unpack(file: &[u8], answer: &mut [u32]) -> WanlophengUnpack
    ensures { UnpackCrosses file.now answer.old answer.new result }
{
    let found = unpack::unpack(file, answer);
    WanlophengUnpack::from(found)
}

// Normalises a name. With a setting other than 0, labels of restricted groups are refused as 17.
#[unsafe(no_mangle)]
pub extern "C" fn wanlopheng_name(
    input: &[u32],
    words: &[u32],
    setting: u32,
    answer: &mut [u32],
    work: &mut [u32],
) -> WanlophengName
    ensures { NameCrosses setting words.now input.now answer.old answer.new work.old work.new result }
{
    cross_name(input, words, setting, answer, work)
}

// Normalises one label, with the same setting.
#[unsafe(no_mangle)]
pub extern "C" fn wanlopheng_label(
    input: &[u32],
    words: &[u32],
    setting: u32,
    answer: &mut [u32],
    work: &mut [u32],
) -> WanlophengLabel
    ensures { LabelCrosses setting words.now input.now answer.old answer.new work.old work.new result }
{
    cross_label(input, words, setting, answer, work)
}

// Checks a table for soundness.
#[unsafe(no_mangle)]
pub extern "C" fn wanlopheng_soundness(words: &[u32]) -> WanlophengSoundness
    ensures { soundness_fields result ≡ soundness_numbers (soundness_of words.now) }
{
    let found = sound_check::soundness(words);
    WanlophengSoundness::from(found)
}

// Whether the words of a table have a layout fault: 1 where they do, 0 where they hold a table.
#[unsafe(no_mangle)]
pub extern "C" fn wanlopheng_layout_fault(words: &[u32]) -> u32
    ensures { result ≡ layout_fault words.now }
{
    u32::from(layout_fault::layout_fault(words))
}
