// Whether a call leaves text that needs no NFC as it is: rules 6 to 8 are looked for where the input is long enough to bear the look, and no
// longer than the worked length may be, since text over that is given up at the limit and scanned again.
#![tactic(auto)]

ghost use Rattle.std.specs.Prelude.{◌≡◌, true, ◌⊎◌};
ghost use Rattle.bit_sets.specs.Sets.{has};
ghost use Rattle.sections.specs.Laid.{Laid};
ghost use Rattle.table.specs.Layout.{the_table};
ghost use Rattle.rule8_laws.specs.Found.{RulesHold};
ghost use Rattle.unpaired.specs.Unpaired.{pair_places, Unpaired};

use limits::MOST_WORKED;
use pair_index::put_bit;
use quick_found::finds;
use sections::Sections;
use unpaired::QUICK_PLACE;

// The shortest input for which they are looked for.
const QUICK_FROM: usize = 2048;

// Notes that rules 6 to 8 hold, if they are found to, for an input of n codepoints. 02, Item 11: "only where the set isn't empty and that pass
// found rules 6 to 8 to hold".
pub fn ask(words: &[u32], ix: Sections, unpaired: &mut [u32], n: usize)
    requires laid { Laid words.now ix }
    requires unpaired { Unpaired (the_table words.now) unpaired.old }
    ensures unpaired_2 { Unpaired (the_table words.now) unpaired.new }
    ensures fact { has unpaired.new pair_places ≡ true
        → (has unpaired.old pair_places ≡ true) ⊎ RulesHold (the_table words.now) }
{
    if (n < QUICK_FROM) | (MOST_WORKED < n) {
        return;
    }
    if !finds(words, ix) {
        return;
    }
    put_bit(unpaired, QUICK_PLACE);
}
