// The answer of the search for the group of a text.
ghost use Rattle.std.specs.Prelude.{◌≡◌};
ghost use Rattle.groups.specs.Call.{group_values};
ghost use Rattle.call_fields.specs.GroupFields.{group_fields, group_numbers, found_fields, found_numbers};

use answers::Refusal;
use groups::{FoundGroup, GroupSearch};

// A group that was found, 1 with its number and 1 for each of its flags that is set; 0 throughout where none was.
#[derive(Clone, Copy)]
pub struct FoundNumbers {
    pub found: u32,
    pub group: usize,
    pub restricted: u32,
    pub whitelisted: u32,
}

// The number of the refusal or 0, its place, the group that was found with its flags, and how often it was asked whether a group holds a
// character.
#[repr(C)]
#[derive(Clone, Copy)]
pub struct WanlophengGroup {
    pub number: u32,
    pub place: usize,
    pub found: u32,
    pub group: usize,
    pub restricted: u32,
    pub whitelisted: u32,
    pub asked: usize,
}

impl From<Option<FoundGroup>> for FoundNumbers {
    ghost from_gives = { λ f r. found_fields r ≡ found_numbers f };

    fn from(f: Option<FoundGroup>) -> FoundNumbers {
        match f {
            Some(g) => FoundNumbers {
                found: 1,
                group: g.number,
                restricted: u32::from(g.restricted),
                whitelisted: u32::from(g.whitelisted),
            },
            None => FoundNumbers {
                found: 0,
                group: 0,
                restricted: 0,
                whitelisted: 0,
            },
        }
    }
}

impl From<Result<GroupSearch, Refusal>> for WanlophengGroup {
    ghost from_gives = { λ a r. group_fields r ≡ group_numbers (group_values a) };

    fn from(a: Result<GroupSearch, Refusal>) -> WanlophengGroup {
        match a {
            Ok(s) => {
                let n = FoundNumbers::from(s.found);
                WanlophengGroup {
                    number: 0,
                    place: 0,
                    found: n.found,
                    group: n.group,
                    restricted: n.restricted,
                    whitelisted: n.whitelisted,
                    asked: s.asked,
                }
            }
            Err(r) => WanlophengGroup {
                number: r.number(),
                place: r.place(),
                found: 0,
                group: 0,
                restricted: 0,
                whitelisted: 0,
                asked: 0,
            },
        }
    }
}
