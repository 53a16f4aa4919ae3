// The search for the group of a text, for C and Rust.
ghost use Rattle.std.specs.Prelude.{◌≡◌};
ghost use Rattle.groups.specs.Call.{group_call};
ghost use Rattle.call_fields.specs.GroupFields.{group_fields, group_numbers};

use call_fields::WanlophengGroup;

// Finds the first group that holds every character of a text.
#[unsafe(no_mangle)]
pub extern "C" fn wanlopheng_group(text: &[u32], words: &[u32]) -> WanlophengGroup
    ensures { group_fields result ≡ group_numbers (group_call words.now text.now) }
{
    let found = groups::group(text, words);
    WanlophengGroup::from(found)
}
