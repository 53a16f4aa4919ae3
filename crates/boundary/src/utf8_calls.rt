// The UTF-8 reader and writer, and the byte form of the name call (02, Item 2), for C and Rust.
ghost use Rattle.bytes_crossing.specs.BytesCrossing.{NameBytesCrosses};
ghost use Rattle.boundary.specs.Utf8Crossing.{ReadCrosses, WriteCrosses};

use bytes_crossing::cross_name_bytes;
use call_fields::WanlophengUtf8;
use fields::WanlophengName;

// Reads bytes into codepoints.
#[unsafe(no_mangle)]
pub extern "C" fn wanlopheng_utf8_read(bytes: &[u8], answer: &mut [u32]) -> WanlophengUtf8
    ensures { ReadCrosses bytes.now answer.old answer.new result }
{
    let found = utf8::read(bytes, answer);
    WanlophengUtf8::from(found)
}

// Writes codepoints as bytes.
#[unsafe(no_mangle)]
pub extern "C" fn wanlopheng_utf8_write(codepoints: &[u32], answer: &mut [u8]) -> WanlophengUtf8
    ensures { WriteCrosses codepoints.now answer.old answer.new result }
{
    let found = utf8::write(codepoints, answer);
    WanlophengUtf8::from(found)
}

// Normalises a name that is given as bytes, with a setting as for a name.
#[unsafe(no_mangle)]
pub extern "C" fn wanlopheng_name_bytes(
    bytes: &[u8],
    words: &[u32],
    setting: u32,
    answer: &mut [u32],
    work: &mut [u32],
) -> WanlophengName
    ensures { NameBytesCrosses setting words.now bytes.now answer.old answer.new work.old work.new result }
{
    cross_name_bytes(bytes, words, setting, answer, work)
}
