// The text alone, among the tokens as they stand in the work area: codepoints in its first MOST_WORKED words, tags in as many behind.
ghost use Rattle.std.specs.Prelude.{◌≤◌, length};
ghost use Rattle.limits.specs.Limits.{least_work, most_worked};
ghost use Rattle.label.specs.CellText.{TextAlone};

use limits::MOST_WORKED;

// Puts the text alone in the place of the tags, each of which is read before it is written over. Answers its length. The tags are numbers, since the
// work area is lent as words.
pub fn text_alone(w: &mut [u32], n: usize) -> usize
    requires least_work_in_bounds { least_work ≤ length w.old }
    requires n_le_most_worked { n ≤ most_worked }
    ensures { TextAlone w.old w.new n result }
{
    let (codes, tags) = w.split_at_mut(MOST_WORKED);
    // by hand: a turn reads one tag and writes over an earlier one, so no iterator can lend them
    let mut m: usize = 0;
    for (i, &c) in codes[..n].iter().enumerate() {
        if tags[i] != 0 {
            tags[m] = c;
            m += 1;
        }
    }
    m
}
