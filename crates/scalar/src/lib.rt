// Unicode scalar values.
#![tactic(auto)]

ghost use Rattle.std.specs.Prelude.{◌≡◌};
ghost use Rattle.scalar.specs.Scalar.{is_scalar};

// Whether c is at most 10FFFF and no surrogate.
pub fn is_scalar(c: u32) -> bool
    ensures { result ≡ is_scalar c }
{
    if 0x10FFFF < c {
        return false;
    }
    if c < 0xD800 {
        return true;
    }
    0xDFFF < c
}
