// The byte form of the name call for C and Rust, with the promise of the call that it hands on and its answer as a struct of plain numbers. The crate
// `boundary` gives it its name outside.
#![tactic(auto)]

ghost use Rattle.bytes_crossing.specs.BytesCrossing.{NameBytesCrosses};

use call_fields::name_bytes_fields;
use fields::WanlophengName;

// Normalises a name that is given as bytes, with a setting as for a name.
pub fn cross_name_bytes(
    bytes: &[u8],
    words: &[u32],
    setting: u32,
    answer: &mut [u32],
    work: &mut [u32],
) -> WanlophengName
    ensures { NameBytesCrosses setting words.now bytes.now answer.old answer.new work.old work.new result }
{
    let found = name_bytes::name_bytes(bytes, words, setting, answer, work);
    name_bytes_fields(found)
}
