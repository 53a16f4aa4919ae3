// Clearing a buffer, copying into its front, and whether two hold the same. The callers lend a part of theirs where only that is meant.
#![tactic(auto)]

ghost use Rattle.std.specs.Prelude.{◌≡◌, ◌++◌, ◌≤◌, length, replicate, drop};
ghost use Rattle.lists.specs.Lists.{same_list};
ghost use Rattle.buffers.specs.Writes.{Wiped};

// Every word becomes 0. The library's `fill` says so of clones; here it is one equation, which every clearing of words cites.
pub fn clear(s: &mut [u32])
    ensures { s.new ≡ replicate (length s.old) 0 }
{
    s.fill(0);
}

// Every word becomes 0, for a local array that held text and is about to die. A clearing that nothing reads is optimised away: a word is read
// back, at a place that a compiler cannot know if `seed` comes from the caller's input, and the caller lets its own answer depend on it.
pub fn wipe(s: &mut [u32], seed: usize) -> bool
    ensures { Wiped s.old s.new result }
{
    clear(s);
    if s.len() == 0 {
        return true;
    }
    s[seed % s.len()] == 0
}

// The elements of `src` take the place of the first ones of `dst`; those behind them stay.
pub fn copy_into<T: Copy>(dst: &mut [T], src: &[T])
    requires { length src.now ≤ length dst.old }
    ensures { dst.new ≡ src.now ++ drop (length src.now) dst.old }
{
    dst[..src.len()].copy_from_slice(src);
}

// Whether two parts hold the same words.
pub fn same(a: &[u32], b: &[u32]) -> bool
    ensures { result ≡ same_list a.now b.now }
{
    a == b
}
