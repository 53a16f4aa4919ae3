// Refusal 12: the first group that holds every character of a text, and how often the search for it asked.
#![tactic(auto)]

ghost use Rattle.std.specs.Prelude.{◌≡◌, ◌≤◌, length};
ghost use Rattle.limits.specs.Limits.{most_input};
ghost use Rattle.sections.specs.Known.{GroupsKnown};
ghost use Rattle.sections.specs.Laid.{Laid};
ghost use Rattle.table.specs.Layout.{the_table};
ghost use Rattle.table.specs.GroupPart.{GroupsPart, groups_in};
ghost use Rattle.groups.specs.Groups.{search_of};
ghost use Rattle.groups.specs.Call.{group_values, group_call};

use answers::Refusal;
use layout::layout;
use limits::MOST_INPUT;
use sections::Sections;
use sections::lookup::in_section;
use table::lookup::group_at;

// The first group that holds a text: its number and its flags.
#[derive(Clone, Copy)]
pub struct FoundGroup {
    pub number: usize,
    pub restricted: bool,
    pub whitelisted: bool,
}

// What the search answers: the group, if one holds the text, and how often it was asked whether a group holds a character.
#[derive(Clone, Copy)]
pub struct GroupSearch {
    pub found: Option<FoundGroup>,
    pub asked: usize,
}

// The first group of a section that holds every character. A group is left at the first character that it lacks.
fn group_in(part: &[u32], sorted: bool, text: &[u32]) -> GroupSearch
    requires groups_part { GroupsPart part.now × GroupsKnown part.now sorted }
    requires text_len_bound { length text.now ≤ most_input }
    ensures { result ≡ search_of (groups_in part.now) text.now }
{
    let mut asked: usize = 0;
    let mut next: usize = 0;
    let mut at: usize = 0;
    // by hand: 01 names nested loops left by a label; a group's length is its own
    'groups: while at < part.len() {
        let number = next;
        let group = group_at(part, at);
        next += 1;
        at = group.next;
        for &c in text {
            asked += 1;
            if !in_section(part, group.pairs, sorted, c) {
                continue 'groups;
            }
        }
        let found = FoundGroup {
            number,
            restricted: group.restricted,
            whitelisted: group.whitelisted,
        };
        return GroupSearch {
            found: Some(found),
            asked,
        };
    }
    GroupSearch { found: None, asked }
}

// The first group of a table that holds every character.
pub fn group_of(words: &[u32], ix: Sections, text: &[u32]) -> GroupSearch
    requires laid { Laid words.now ix }
    requires text_len_bound { length text.now ≤ most_input }
    ensures { result ≡ search_of (the_table words.now).groups text.now }
{
    group_in(ix.groups.of(words), ix.sorted.groups, text)
}

// The call: 1, then 3, then the search.
pub fn group(text: &[u32], words: &[u32]) -> Result<GroupSearch, Refusal>
    ensures { group_values result ≡ group_call words.now text.now }
{
    let Some(ix) = layout(words) else {
        return Err(Refusal::LayoutFault);
    };
    if text.len() > MOST_INPUT {
        return Err(Refusal::InputTooLong);
    }
    Ok(group_of(words, ix, text))
}
