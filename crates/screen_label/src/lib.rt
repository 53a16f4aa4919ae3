// The screen form of one label (02, Item 1), token by token: the label is walked again, since the work area shows no token's end any more.
// forms/specs/Forms.antt states what is written, specs/Showing.antt what is answered.
#![tactic(auto)]

ghost use Rattle.std.specs.Prelude.{◌+◌, ◌*◌, ◌≤◌, length};
ghost use Rattle.limits.specs.Limits.{most_input, most_worked, least_work};
ghost use Rattle.sections.specs.Laid.{Laid};
ghost use Rattle.table.specs.Layout.{the_table};
ghost use Rattle.unpaired.specs.Unpaired.{Unpaired};
ghost use Rattle.name.specs.Parts.{most_answer};
ghost use Rattle.token_walk.specs.Walk.{Walkable};
ghost use Rattle.screen_label.specs.Showing.{ShowsLabel};

use screen_token::put_token;
use sections::Sections;
use token_walk::next_token;

// Writes the screen form of an accepted label behind the first `at` words of the answer, if there is room, and answers the length with it. The
// words of the work area are open.
pub fn show_label(
    words: &[u32],
    ix: Sections,
    greek: bool,
    label: &[u32],
    unpaired: &mut [u32],
    answer: &mut [u32],
    at: usize,
    w: &mut [u32],
) -> usize
    requires laid { Laid words.now ix }
    requires unpaired { Unpaired (the_table words.now) unpaired.old }
    requires least_work_in_bounds { (least_work ≤ length w.old) × (length label.now ≤ most_input) × (at + most_worked * length label.now ≤ most_answer) }
    requires walkable { Walkable (the_table words.now) label.now }
    ensures shows_label { ShowsLabel (the_table words.now) greek label.now answer.old answer.new at result }
    ensures unpaired_2 { Unpaired (the_table words.now) unpaired.new }
{
    let mut end = at;
    let mut i = 0;
    // by hand: a token's length is its own, and the place goes on by it; an iterator would hold the work area, which `put_token` reads
    while i < label.len() {
        let token = next_token(words, ix, &label[i..], unpaired, w);
        end = put_token(words, ix, greek, token, answer, end, w);
        i += token.extent.end;
    }
    end
}
