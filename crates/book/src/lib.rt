// The payee book: save, find and forget. What the calls answer stands in book_answers, what the area holds in book_slots.
#![tactic(auto)]

pub mod calls;
