// Which emoji stands at the start of a part of a label, as a call of its own. specs/EmojiCall.antt states what it answers.
#![tactic(auto)]

ghost use Rattle.std.specs.Prelude.{◌≡◌};
ghost use Rattle.emoji_call.specs.EmojiCall.{emoji_values, emoji_call};

use finder::emoji::find;

// The words are not a table.
#[derive(Clone, Copy)]
pub struct LayoutFault;

// An emoji at the start of a part: how much of the part it takes, the number of its record from 0, and how many FE0F it takes.
#[derive(Clone, Copy)]
pub struct EmojiMatch {
    pub taken: usize,
    pub index: usize,
    pub selectors: usize,
}

// The emoji sequence of the table that matches the start of the part and takes most of it.
pub fn which_emoji(part: &[u32], words: &[u32]) -> Result<Option<EmojiMatch>, LayoutFault>
    ensures { emoji_values result ≡ emoji_call words.now part.now }
{
    let Some(ix) = layout::layout(words) else {
        return Err(LayoutFault);
    };
    let Some(m) = find(words, ix, part) else {
        return Ok(None);
    };
    Ok(Some(EmojiMatch {
        taken: m.taken,
        index: m.number,
        selectors: m.selectors,
    }))
}
