// One walk over the tokens of a label: each token with its place, and its codepoints in the work area. Nothing is stored for a token: a
// token's own part of the input, scanned alone, gives exactly that token (places/proofs/PartLaws.antt). The report (02, Item 9) is made so.
#![tactic(auto)]

ghost use Rattle.std.specs.Prelude.{◌≤◌, length};
ghost use Rattle.limits.specs.Limits.{most_input, least_work};
ghost use Rattle.sections.specs.Laid.{Laid};
ghost use Rattle.table.specs.Layout.{the_table};
ghost use Rattle.unpaired.specs.Unpaired.{Unpaired};
ghost use Rattle.token_walk.specs.Walk.{Walkable, Walks};

use normal_cells::normalise;
use scanning::scan;
use sections::Sections;
use token_extent::{Extent, token_end};

// The first token of the rest of a label: where it ends, and how many codepoints it has, which stand in front in the work area.
#[derive(Clone, Copy)]
pub struct Walked {
    pub extent: Extent,
    pub length: usize,
}

// The first token of the rest of an accepted label. The words of the work area behind its codepoints are open.
pub fn next_token(
    words: &[u32],
    ix: Sections,
    rest: &[u32],
    unpaired: &mut [u32],
    w: &mut [u32],
) -> Walked
    requires laid { Laid words.now ix }
    requires unpaired { Unpaired (the_table words.now) unpaired.old }
    requires least_work_in_bounds { (least_work ≤ length w.old) × (length rest.now ≤ most_input) }
    requires walkable { Walkable (the_table words.now) rest.now }
    ensures walks { Walks (the_table words.now) rest.now w.old w.new result }
    ensures unpaired_2 { Unpaired (the_table words.now) unpaired.new }
{
    let extent = token_end(words, ix, rest);
    let scanned = scan(words, ix, &rest[..extent.end], w);
    match scanned {
        Ok(tally) => {
            let length = normalise(words, ix, unpaired, w, tally.worked);
            Walked { extent, length }
        }
        Err(_) => Walked { extent, length: 0 },
    }
}
