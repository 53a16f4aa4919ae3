// The two lists of 02, Item 14, for C and Rust.
ghost use Rattle.listing_crossing.specs.ListingCrossing.{MovedCrosses, RespelledCrosses};

use listing_crossing::{WanlophengList, cross_moved, cross_respelled};

// Lists the slots of a book that a new table would file differently.
#[unsafe(no_mangle)]
pub extern "C" fn wanlopheng_moved(
    area: &[u32],
    words: &[u32],
    list: &mut [u32],
    work: &mut [u32],
) -> WanlophengList
    ensures { MovedCrosses words.now area.now list.old list.new work.old work.new result }
{
    cross_moved(area, words, list, work)
}

// Lists the groups in which a label could be respelled.
#[unsafe(no_mangle)]
pub extern "C" fn wanlopheng_respelled(
    label: &[u32],
    words: &[u32],
    list: &mut [u32],
    work: &mut [u32],
) -> WanlophengList
    ensures { RespelledCrosses words.now label.now list.old list.new work.old work.new result }
{
    cross_respelled(label, words, list, work)
}
