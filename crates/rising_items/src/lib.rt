// Items: one walk sees whether each is above those before it.
#![tactic(auto)]

ghost use Rattle.std.specs.Prelude.{◌≡◌, true, ◌↔◌};
ghost use Rattle.apart.specs.Apart.{Apart};

// Whether each of the items is above those before it.
pub fn items_rise(items: &[u32]) -> bool
    ensures { (result ≡ true) ↔ Apart 1 0 items.now }
{
    items.is_sorted_by(|a, b| a < b)
}
