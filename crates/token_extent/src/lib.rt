// Where the first token of the rest of a label ends, found from the left. Nothing is stored for a token. specs/Ends.antt states what is answered.
#![tactic(auto)]

ghost use Rattle.std.specs.Prelude.{◌≤◌, length};
ghost use Rattle.sections.specs.Laid.{Laid};
ghost use Rattle.table.specs.Layout.{the_table};
ghost use Rattle.tokens.specs.Scan.{codepoint_step, steps};
ghost use Rattle.scanning.specs.Scanning.{first_step};
ghost use Rattle.tokens.specs.Tokens.{tokens_of};
ghost use Rattle.token_extent.specs.Ends.{StandsIs, TokenEnds};

use finder::emoji::find;
use sections::Sections;
use tokens::single::{Single, alone};

// What stands at one place of a label: an emoji, with the number of its record and how much it takes, text, or what gives no token.
#[derive(Clone, Copy)]
pub enum Stands {
    Emoji { number: usize, taken: usize },
    Text,
    Nothing,
}

// Where the first token of the rest of a label ends, and the number of its record where it is an emoji.
#[derive(Clone, Copy)]
pub struct Extent {
    pub emoji: Option<usize>,
    pub end: usize,
}

// What stands at a codepoint that no emoji sequence takes.
fn look_alone(words: &[u32], ix: Sections, c: u32) -> Stands
    requires { Laid words.now ix }
    ensures { StandsIs (codepoint_step (the_table words.now) c) result }
{
    let single = alone(words, ix, c);
    match single {
        Single::Valid => Stands::Text,
        Single::Mapped(_) => Stands::Text,
        Single::Ignored => Stands::Nothing,
        Single::Disallowed => Stands::Nothing,
    }
}

// What stands at the start of the rest of a label.
fn look(words: &[u32], ix: Sections, rest: &[u32]) -> Stands
    requires laid { Laid words.now ix }
    requires in_bounds { 1 ≤ length rest.now }
    ensures { StandsIs (first_step (the_table words.now) rest.now) result }
{
    let found = find(words, ix, rest);
    match found {
        Some(m) => Stands::Emoji {
            number: m.number,
            taken: m.taken,
        },
        None => look_alone(words, ix, rest[0]),
    }
}

// The extent of the first token of the rest of a label. An emoji ends the token before it, and text ends an emoji; what gives no token counts
// to the token before it, or to the first one.
pub fn token_end(words: &[u32], ix: Sections, rest: &[u32]) -> Extent
    requires laid { Laid words.now ix }
    requires in_bounds { 1 ≤ length (tokens_of (steps (the_table words.now) rest.now)) }
    ensures { TokenEnds (the_table words.now) rest.now result }
{
    // What the token has come to: nothing yet, text, or an emoji with the number of its record.
    let mut token: Option<Option<usize>> = None;
    let mut i = 0;
    // by hand: a step takes what its token is long, and the place goes on by it
    while i < rest.len() {
        let here = look(words, ix, &rest[i..]);
        match here {
            Stands::Emoji { number, taken } => {
                if let Some(emoji) = token {
                    return Extent { emoji, end: i };
                }
                token = Some(Some(number));
                i += taken;
            }
            Stands::Text => {
                let emoji = token.flatten();
                if emoji.is_some() {
                    return Extent { emoji, end: i };
                }
                token = Some(None);
                i += 1;
            }
            Stands::Nothing => {
                i += 1;
            }
        }
    }
    Extent {
        emoji: token.flatten(),
        end: i,
    }
}
