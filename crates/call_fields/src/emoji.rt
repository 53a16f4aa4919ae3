// The answer of the call that says which emoji it was.
ghost use Rattle.std.specs.Prelude.{◌≡◌};
ghost use Rattle.emoji_call.specs.EmojiCall.{emoji_values};
ghost use Rattle.call_fields.specs.EmojiFields.{emoji_fields};

use emoji_call::{EmojiMatch, LayoutFault};

// The refusal number, 1 where an emoji is found, how much of the part it takes, the number of its record from 0, and the FE0F that it takes.
#[repr(C)]
#[derive(Clone, Copy)]
pub struct WanlophengEmoji {
    pub number: u32,
    pub found: u32,
    pub taken: usize,
    pub index: usize,
    pub selectors: usize,
}

impl From<Result<Option<EmojiMatch>, LayoutFault>> for WanlophengEmoji {
    ghost from_gives = { λ answer r. emoji_fields r ≡ emoji_values answer };

    fn from(answer: Result<Option<EmojiMatch>, LayoutFault>) -> WanlophengEmoji {
        match answer {
            Ok(Some(m)) => WanlophengEmoji {
                number: 0,
                found: 1,
                taken: m.taken,
                index: m.index,
                selectors: m.selectors,
            },
            Ok(None) => WanlophengEmoji {
                number: 0,
                found: 0,
                taken: 0,
                index: 0,
                selectors: 0,
            },
            Err(LayoutFault) => WanlophengEmoji {
                number: 1,
                found: 0,
                taken: 0,
                index: 0,
                selectors: 0,
            },
        }
    }
}
