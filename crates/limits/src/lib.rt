// The limits of the calls, a constant for each definition of specs/Limits.antt.
#![tactic(auto)]

// The most codepoints of an input: refusal 3 is for more.
pub const MOST_INPUT: usize = 16384;

// The most that the worked length may reach: refusal 7 is for more.
pub const MOST_WORKED: usize = 4096;

// The fewest words of a work area: refusal 2 is for fewer.
pub const LEAST_WORK: usize = 8192;
