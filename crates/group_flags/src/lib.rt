// A flag for each group.
#![tactic(auto)]

ghost use Rattle.std.specs.Prelude.{◌≡◌, ◌<◌, ℕ, Bool, true, false, not, List, length, eqb};
ghost use Rattle.lists.specs.Lists.{any};
ghost use Rattle.table.specs.Layout.{most_groups, the_table};
ghost use Rattle.sections.specs.Known.{GroupsKnown};
ghost use Rattle.sections.specs.Laid.{Laid};
ghost use Rattle.table.specs.GroupPart.{GroupsPart, groups_in};
ghost use Rattle.group_flags.specs.Flags.{bit, flagged_by, kept_by, is_apart, TellsPlaces, number_in, OwnNumber, KeepsOutsideBy};

use sections::Sections;
use sections::lookup::in_section;
use table::lookup::group_at;

// What stands for a flag: a bool, or a number, where 1 and 0 are put and each number but 0 is a flag that is set.
pub trait Flag: Copy {
    ghost of: { Bool → Self };

    ghost is_set: { Self → Bool };

    // The flag that is set, or the one that is not.
    fn of(set: bool) -> Self
        ensures { result ≡ of set };

    // Whether the flag is set.
    fn is_set(self) -> bool
        ensures { result ≡ is_set self };
}

impl Flag for bool {
    ghost of = { λ b. b };

    ghost is_set = { λ f. f };

    fn of(set: bool) -> bool {
        set
    }

    fn is_set(self) -> bool {
        self
    }
}

impl Flag for u32 {
    ghost of = { bit };

    ghost is_set = { λ f. not (eqb f 0) };

    fn of(set: bool) -> u32 {
        u32::from(set)
    }

    fn is_set(self) -> bool {
        self != 0
    }
}

// Sets the flags of the groups of a section that hold m.
fn flag_in<F: Flag>(part: &[u32], sorted: bool, flags: &mut [F; 256], m: u32)
    requires { GroupsPart part.now × GroupsKnown part.now sorted }
    ensures { flags.new ≡ flagged_by (F.of true) m (groups_in part.now) flags.old }
{
    // by hand: a record's length is its own, and the place goes on by it
    let mut n: usize = 0;
    let mut at: usize = 0;
    while at < part.len() {
        let group = group_at(part, at);
        if in_section(part, group.pairs, sorted, m) {
            flags[n] = F::of(true);
        }
        n += 1;
        at = group.next;
    }
}

// Sets the flags of the groups of a table that hold m.
pub fn flag_holders<F: Flag>(words: &[u32], ix: Sections, flags: &mut [F; 256], m: u32)
    requires { Laid words.now ix }
    ensures { flags.new ≡ flagged_by (F.of true) m (the_table words.now).groups flags.old }
{
    flag_in(ix.groups.of(words), ix.sorted.groups, flags, m);
}

// Keeps each flag whose place passes the test.
pub fn keep_where<F: Flag, T: Fn(usize) -> bool>(flags: &mut [F; 256], test: T)
    requires callable { (i : ℕ) → i < most_groups → T.pre test i }
    ensures { (others : List ℕ) → length others ≡ most_groups → TellsPlaces (T.post test) others → flags.new ≡ kept_by (F.of false) flags.old others }
{
    let clear = F::of(false);
    for i in 0..256 {
        if !test(i) {
            flags[i] = clear;
        }
    }
}

// Whether a flag is set.
pub fn any_set<F: Flag>(flags: &[F; 256]) -> bool
    ensures { result ≡ any F.is_set flags.now }
{
    flags.iter().any(|&f| f.is_set())
}

// The number of the component of the groups of a section that hold c, if one does. It stops at the first of them, where `flag_in` asks every group:
// one walk for both would take a closure with a state, and be no plainer.
fn own_number(part: &[u32], sorted: bool, k: &[u32], c: u32) -> Option<u32>
    requires groups_part { GroupsPart part.now × GroupsKnown part.now sorted }
    requires k_len { length k.now ≡ most_groups }
    ensures { OwnNumber (groups_in part.now) k.now c (number_in result) }
{
    // by hand: a record's length is its own, and the place goes on by it
    let mut n: usize = 0;
    let mut at: usize = 0;
    while at < part.len() {
        let group = group_at(part, at);
        if in_section(part, group.pairs, sorted, c) {
            return Some(k[n]);
        }
        n += 1;
        at = group.next;
    }
    None
}

// Whether the number x stands for a component, and for another one than the number `own`.
fn is_apart(x: u32, own: Option<u32>) -> bool
    ensures { result ≡ is_apart (number_in own) x }
{
    x != 0 && own != Some(x)
}

// Keeps the flags of the groups that hold a member of the whole of c outside its extent, by the components of that whole: those of another
// component than the groups that hold c.
pub fn keep_outside<F: Flag>(words: &[u32], ix: Sections, flags: &mut [F; 256], k: &[u32], c: u32)
    requires laid { Laid words.now ix }
    requires k_len { length k.now ≡ most_groups }
    ensures { KeepsOutsideBy (F.of false) (the_table words.now).groups k.now c flags.old flags.new }
{
    let own = own_number(ix.groups.of(words), ix.sorted.groups, k, c);
    keep_where(flags, |i| is_apart(k[i], own));
}
