// The answers of the UTF-8 reader and writer and of the byte form of the name call (02, Item 2).
ghost use Rattle.std.specs.Prelude.{◌≡◌};
ghost use Rattle.utf8.specs.Calls.{utf8_values};
ghost use Rattle.name_bytes.specs.NameBytes.{name_bytes_values};
ghost use Rattle.fields.specs.Fields.{name_fields};
ghost use Rattle.call_fields.specs.Utf8Fields.{utf8_fields};

use answers::AcceptedName;
use fields::WanlophengName;
use name_bytes::NameBytesError;
use utf8::Utf8Error;

// The refusal number, 0 where there is none, its place, and the number of elements that were read or written.
#[repr(C)]
#[derive(Clone, Copy)]
pub struct WanlophengUtf8 {
    pub number: u32,
    pub place: usize,
    pub length: usize,
}

impl From<Result<usize, Utf8Error>> for WanlophengUtf8 {
    ghost from_gives = { λ answer r. utf8_fields r ≡ utf8_values answer };

    fn from(answer: Result<usize, Utf8Error>) -> WanlophengUtf8 {
        match answer {
            Ok(length) => WanlophengUtf8 {
                number: 0,
                place: 0,
                length,
            },
            Err(Utf8Error::IllFormed(at)) => WanlophengUtf8 {
                number: 30,
                place: at,
                length: 0,
            },
            Err(Utf8Error::NotScalar(at)) => WanlophengUtf8 {
                number: 4,
                place: at,
                length: 0,
            },
            Err(Utf8Error::TooLittleRoom) => WanlophengUtf8 {
                number: 31,
                place: 0,
                length: 0,
            },
        }
    }
}

// A function and no `From`: neither the struct nor `Result` is of this crate.
pub fn name_bytes_fields(answer: Result<AcceptedName, NameBytesError>) -> WanlophengName
    ensures { name_fields result ≡ name_bytes_values answer }
{
    match answer {
        Ok(name) => WanlophengName::from(Ok(name)),
        Err(NameBytesError::Refused(refusal)) => WanlophengName::from(Err(refusal)),
        Err(NameBytesError::IllFormed(at)) => WanlophengName {
            number: 30,
            place: at,
            length: 0,
            labels: 0,
        },
    }
}
