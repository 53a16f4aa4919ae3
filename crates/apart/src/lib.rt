// Sections whose entries are of one length: one walk sees whether they are sorted without overlap.
#![tactic(auto)]

ghost use Rattle.std.specs.Prelude.{◌≡◌, ◌≤◌, ℕ, Bool, List, length};
ghost use Rattle.std.specs.Borrow.{Bor};
ghost use Rattle.lists.specs.Lists.{is_some};
ghost use Rattle.table.specs.Layout.{ranges, class_ranges};
ghost use Rattle.apart.specs.Order.{OrderOf};
ghost use Rattle.apart.specs.Apart.{Apart, order_if};
ghost use Rattle.apart.specs.Walked.{Entries, TellsEntries};

// "a class at most 255"
const MOST_CLASS: u32 = 255;

// How the entries of a section stand.
#[derive(Clone, Copy)]
pub enum Order {
    Fault,
    AsGiven,
    Sorted,
}

// What a walk says.
fn order_if(fits: bool, apart: bool) -> Order
    ensures { result ≡ order_if fits apart }
{
    if fits {
        if apart {
            return Order::Sorted;
        }
        return Order::AsGiven;
    }
    Order::Fault
}

// How the entries of STEP words stand, where `test` says whether one fits. The walk has no branch but its end, and holds the number below which
// no later entry may start.
fn entries_order<const STEP: usize, F: Fn(&[u32]) -> bool>(part: &[u32], test: F) -> Order
    requires step { 2 ≤ STEP }
    requires callable { (entry : Bor (List ℕ)) → length entry.now ≡ STEP → F.pre test entry }
    ensures { (f p : List ℕ → Bool) → Entries f STEP p → TellsEntries STEP (F.post test) p
        → OrderOf (f part.now) (Apart STEP 1 part.now) result }
{
    let mut floor: u64 = 0;
    let mut fits = true;
    let mut apart = true;
    for entry in part.chunks_exact(STEP) {
        fits = fits & test(entry);
        apart = apart & (floor <= entry[0] as u64);
        floor = entry[1] as u64 + 1;
    }
    order_if((part.len() % STEP == 0) & fits, apart)
}

// How the pairs of a section stand.
pub fn pairs_order(part: &[u32]) -> Order
    ensures { OrderOf (is_some (ranges part.now)) (Apart 2 1 part.now) result }
{
    entries_order::<2, _>(part, |pair| pair[0] <= pair[1])
}

// How the triples of a section stand.
pub fn triples_order(part: &[u32]) -> Order
    ensures { OrderOf (is_some (class_ranges part.now)) (Apart 3 1 part.now) result }
{
    entries_order::<3, _>(part, |t| (t[0] <= t[1]) & (t[2] <= MOST_CLASS))
}
