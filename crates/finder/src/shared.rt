// The start that two texts have in common.
ghost use Rattle.finder.specs.Shared.{Shared};

// So many items of a and b, from the first on, are the same. That no more are is not promised: fewer would cost time and no answer.
pub fn shared(a: &[u32], b: &[u32]) -> usize
    ensures { Shared a.now b.now result }
{
    let both = a.len().min(b.len());
    for k in 0..both {
        if a[k] != b[k] {
            return k;
        }
    }
    both
}
