// The answers that a call's own crate declares, as structs of plain numbers: they cross to C as they are, so a case that lacks a value has 0 there.
#![tactic(auto)]

mod bytes;
mod emoji;
mod group;

pub use bytes::{WanlophengUtf8, name_bytes_fields};
pub use emoji::WanlophengEmoji;
pub use group::WanlophengGroup;
