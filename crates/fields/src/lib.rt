// The answers of the crate `answers` as structs of plain numbers.
#![tactic(auto)]

ghost use Rattle.std.specs.Prelude.{◌≡◌};
ghost use Rattle.answers.specs.Values.{unpack_values, name_values, label_values, broken_rule};
ghost use Rattle.fields.specs.Fields.{unpack_fields, name_fields, label_fields, label_numbers, kind_numbers, kind_fields, broken_number, soundness_numbers, soundness_fields};

use answers::{AcceptedLabel, AcceptedName, Kind, Refusal, Rule, UnpackError};

// The structs cross to C as they are, so a case that lacks a value has 0 there.

// A kind: 1 emoji, 2 ASCII, 3 a group with its number and 1 where it is restricted; other fields are 0.
#[derive(Clone, Copy)]
pub struct KindNumbers {
    pub kind: u32,
    pub group: usize,
    pub restricted: u32,
}

// The unpack call: the refusal number, 0 where the file is unpacked, and the number of words.
#[repr(C)]
#[derive(Clone, Copy)]
pub struct WanlophengUnpack {
    pub number: u32,
    pub count: usize,
}

// The name call: the number of the refusal or 0, its place, the length of the answer and the number of labels.
#[repr(C)]
#[derive(Clone, Copy)]
pub struct WanlophengName {
    pub number: u32,
    pub place: usize,
    pub length: usize,
    pub labels: usize,
}

// The label call: the number of the refusal or 0, its place, the length of the answer, and the kind with its group; the kind is 0 beside a
// refusal.
#[repr(C)]
#[derive(Clone, Copy)]
pub struct WanlophengLabel {
    pub number: u32,
    pub place: usize,
    pub length: usize,
    pub kind: u32,
    pub group: usize,
    pub restricted: u32,
}

// The soundness check: 1 where the table is sound, else 0 and the lowest broken rule, which is 0 for a layout fault.
#[repr(C)]
#[derive(Clone, Copy)]
pub struct WanlophengSoundness {
    pub sound: u32,
    pub rule: u32,
}

impl From<Result<usize, UnpackError>> for WanlophengUnpack {
    ghost from_gives = { λ answer r. unpack_fields r ≡ unpack_values answer };

    fn from(answer: Result<usize, UnpackError>) -> WanlophengUnpack {
        match answer {
            Ok(count) => WanlophengUnpack { number: 0, count },
            Err(e) => WanlophengUnpack {
                number: e.number(),
                count: 0,
            },
        }
    }
}

impl From<Kind> for KindNumbers {
    ghost from_gives = { λ k r. kind_fields r ≡ kind_numbers k };

    fn from(k: Kind) -> KindNumbers {
        match k {
            Kind::Emoji => KindNumbers {
                kind: 1,
                group: 0,
                restricted: 0,
            },
            Kind::Ascii => KindNumbers {
                kind: 2,
                group: 0,
                restricted: 0,
            },
            Kind::Group(g) => KindNumbers {
                kind: 3,
                group: g.number,
                restricted: u32::from(g.restricted),
            },
        }
    }
}

impl From<Result<AcceptedName, Refusal>> for WanlophengName {
    ghost from_gives = { λ a r. name_fields r ≡ name_values a };

    fn from(a: Result<AcceptedName, Refusal>) -> WanlophengName {
        match a {
            Ok(name) => WanlophengName {
                number: 0,
                place: 0,
                length: name.length,
                labels: name.labels,
            },
            Err(r) => WanlophengName {
                number: r.number(),
                place: r.place(),
                length: 0,
                labels: 0,
            },
        }
    }
}

impl From<Result<AcceptedLabel, Refusal>> for WanlophengLabel {
    ghost from_gives = { λ a r. label_fields r ≡ label_numbers (label_values a) };

    fn from(a: Result<AcceptedLabel, Refusal>) -> WanlophengLabel {
        match a {
            Ok(label) => {
                let k = KindNumbers::from(label.kind);
                WanlophengLabel {
                    number: 0,
                    place: 0,
                    length: label.length,
                    kind: k.kind,
                    group: k.group,
                    restricted: k.restricted,
                }
            }
            Err(r) => WanlophengLabel {
                number: r.number(),
                place: r.place(),
                length: 0,
                kind: 0,
                group: 0,
                restricted: 0,
            },
        }
    }
}

// The fields of a table whose lowest broken rule has this number, whatever number it is, or of a sound one.
pub fn soundness_fields(broken: Option<u32>) -> WanlophengSoundness
    ensures { soundness_fields result ≡ soundness_numbers (broken_number broken) }
{
    match broken {
        None => WanlophengSoundness { sound: 1, rule: 0 },
        Some(rule) => WanlophengSoundness { sound: 0, rule },
    }
}

impl From<Result<(), Rule>> for WanlophengSoundness {
    ghost from_gives = { λ s r. soundness_fields r ≡ soundness_numbers (broken_rule s) };

    fn from(s: Result<(), Rule>) -> WanlophengSoundness {
        match s {
            Ok(()) => soundness_fields(None),
            Err(rule) => soundness_fields(Some(rule.number())),
        }
    }
}
