// The numbers of the groups whose flags are set, put into a list. specs/Places.antt states which.
#![tactic(auto)]

ghost use Rattle.std.specs.Prelude.{◌≤◌};
ghost use Rattle.table.specs.Layout.{most_groups};
ghost use Rattle.listing.specs.Filling.{Holds};
ghost use Rattle.group_list.specs.Places.{places_of, GroupPut};

use group_flags::Flag;
use name::labels::put_label;

// Puts the number of a group behind the first `len` words of the list, if its flag is set and it fits. Answers the length with it.
fn put_group(list: &mut [u32], len: usize, group: usize, flag: bool) -> usize
    requires { (len ≤ most_groups) × (group ≤ most_groups) }
    ensures { GroupPut group flag list.old list.new len result }
{
    if !flag {
        return len;
    }
    put_label(list, len, true, &[group as u32])
}

// Lists the groups whose flags are set. Answers the length of the list.
pub fn list_flags<F: Flag>(list: &mut [u32], flags: &[F; 256]) -> usize
    ensures { Holds (places_of F.is_set 0 flags.now) list.old list.new result }
{
    let mut len = 0;
    for (i, &flag) in flags.iter().enumerate() {
        len = put_group(list, len, i, flag.is_set());
    }
    len
}
