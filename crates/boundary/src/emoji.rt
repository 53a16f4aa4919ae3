// The call that says which emoji it was, for C and Rust.
ghost use Rattle.std.specs.Prelude.{◌≡◌};
ghost use Rattle.emoji_call.specs.EmojiCall.{emoji_call};
ghost use Rattle.call_fields.specs.EmojiFields.{emoji_fields};

use call_fields::WanlophengEmoji;

// The emoji sequence that matches the start of a part of a label and takes most of it.
#[unsafe(no_mangle)]
pub extern "C" fn wanlopheng_emoji(part: &[u32], words: &[u32]) -> WanlophengEmoji
    ensures { emoji_fields result ≡ emoji_call words.now part.now }
{
    let found = emoji_call::which_emoji(part, words);
    WanlophengEmoji::from(found)
}
