// Whether the words of a table have a layout fault. specs/Fault.antt states it.
#![tactic(auto)]

ghost use Rattle.std.specs.Prelude.{◌≡◌};
ghost use Rattle.layout_fault.specs.Fault.{has_fault};

// Whether the words of a table have a layout fault.
pub fn layout_fault(words: &[u32]) -> bool
    ensures { result ≡ has_fault words.now }
{
    layout::layout(words).is_none()
}
