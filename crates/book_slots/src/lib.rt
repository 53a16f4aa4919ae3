// The area of a payee book as slots: looking for one. specs/Book.antt states what the area holds, specs/Damage.antt what damage is.
#![tactic(auto)]

pub mod slots;

// The words of the area: those of the front, which the reset skips, then the slots.
pub const FRONT: usize = 16;

pub const SLOTS: usize = 64;

pub const AREA: usize = 16912;

// The words of a slot: a length, those of a form, those of an account.
pub const SLOT: usize = 264;

pub const FORM: usize = 255;

// The account of a payee.
#[repr(C)]
#[derive(Clone, Copy)]
pub struct Account {
    pub words: [u32; 8],
}
