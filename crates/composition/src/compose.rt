// Composition in place.
ghost use Rattle.std.specs.Prelude.{◌≡◌, cond, ◌<◌, ◌+◌, length};
ghost use Rattle.std.proofs.Math.Option.{none};
ghost use Rattle.sections.specs.Laid.{Laid};
ghost use Rattle.table.specs.Layout.{the_table};
ghost use Rattle.text.specs.Composition.{pair};
ghost use Rattle.composition.specs.Work.{free, leading, Ready, ComposedInto};
ghost use Rattle.unpaired.specs.Unpaired.{Unpaired};
ghost use Rattle.pairs.specs.Found.{PairFound};

use pairs::pair_of;
use sections::Sections;

// What c of the given class composes to with the starter s, unless the marks between, of which the last has the class `last`, block it.
fn taken_up(
    words: &[u32],
    ix: Sections,
    unpaired: &mut [u32],
    s: u32,
    c: u32,
    last: u32,
    class: u32,
) -> Option<u32>
    requires laid { Laid words.now ix }
    requires unpaired { Unpaired (the_table words.now) unpaired.old }
    ensures { PairFound (the_table words.now) unpaired.new (cond (free last class) (pair (the_table words.now) s c) none) result }
{
    if last == 0 || last < class {
        return pair_of(words, ix, s, unpaired, c);
    }
    None
}

// How many classes stand before the first 0.
fn lead(classes: &[u32]) -> usize
    ensures { result ≡ leading classes.now }
{
    classes.iter().take_while(|&&k| k != 0).count()
}

// Composes the text from its first starter on.
fn compose_from(
    words: &[u32],
    ix: Sections,
    unpaired: &mut [u32],
    text: &mut [u32],
    classes: &[u32],
    first: usize,
) -> usize
    requires laid { Laid words.now ix }
    requires unpaired { Unpaired (the_table words.now) unpaired.old }
    requires ready { Ready (the_table words.now) text.old classes.now }
    requires first_value { (first ≡ leading classes.now) × (first < length text.old) }
    ensures composed_into { ComposedInto (the_table words.now) text.old text.new result }
    ensures unpaired_2 { Unpaired (the_table words.now) unpaired.new }
{
    let mut start = first;
    let mut put = first + 1;
    let mut last: u32 = 0;
    // By place and not zipped with the classes: the loop writes the text that it reads.
    for i in first + 1..text.len() {
        let c = text[i];
        let class = classes[i];
        let s = text[start];
        match taken_up(words, ix, unpaired, s, c, last, class) {
            Some(h) => {
                text[start] = h;
            }
            None => {
                text[put] = c;
                let here = put;
                put += 1;
                last = class;
                if class == 0 {
                    start = here;
                }
            }
        }
    }
    put
}

// Composes the text in place: the classes beside it are its own, and it is in canonical order. The answer is the number of codepoints that
// are left, which stand in front.
pub fn compose(
    words: &[u32],
    ix: Sections,
    unpaired: &mut [u32],
    text: &mut [u32],
    classes: &[u32],
) -> usize
    requires laid { Laid words.now ix }
    requires unpaired { Unpaired (the_table words.now) unpaired.old }
    requires ready { Ready (the_table words.now) text.old classes.now }
    ensures composed_into { ComposedInto (the_table words.now) text.old text.new result }
    ensures unpaired_2 { Unpaired (the_table words.now) unpaired.new }
{
    let n = lead(classes);
    if n < text.len() {
        return compose_from(words, ix, unpaired, text, classes, n);
    }
    n
}
