// Hangul syllables and jamo, by the Unicode Standard's arithmetic.
ghost use Rattle.std.specs.Prelude.{◌≡◌, ◌&&◌};
ghost use Rattle.text.specs.Hangul.{is_syllable, is_jamo, is_leading, is_vowel, is_trailing, is_open_syllable};

use table::lookup::between;

pub fn is_syllable(c: u32) -> bool
    ensures { result ≡ is_syllable c }
{
    between(c, 0xAC00, 0xAC00 + 11171)
}

pub fn is_leading(c: u32) -> bool
    ensures { result ≡ is_leading c }
{
    between(c, 0x1100, 0x1112)
}

pub fn is_vowel(c: u32) -> bool
    ensures { result ≡ is_vowel c }
{
    between(c, 0x1161, 0x1175)
}

pub fn is_trailing(c: u32) -> bool
    ensures { result ≡ is_trailing c }
{
    between(c, 0x11A8, 0x11C2)
}

pub fn is_jamo(c: u32) -> bool
    ensures { result ≡ is_jamo c }
{
    is_leading(c) || is_vowel(c) || is_trailing(c)
}

// A syllable of a leading consonant and a vowel alone.
pub fn is_open(c: u32) -> bool
    ensures { result ≡ is_open_syllable c }
{
    is_syllable(c) && (c - 0xAC00) % 28 == 0
}

// A leading consonant and a vowel.
pub fn makes_open(a: u32, b: u32) -> bool
    ensures { result ≡ (is_leading a && is_vowel b) }
{
    is_leading(a) && is_vowel(b)
}

// An open syllable and a trailing consonant.
pub fn makes_closed(a: u32, b: u32) -> bool
    ensures { result ≡ (is_open_syllable a && is_trailing b) }
{
    is_open(a) && is_trailing(b)
}
