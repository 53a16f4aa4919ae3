// What the calls of the payee book answer: specs/Calls.antt defines it, specs/Promise.antt has their promises.
#![tactic(auto)]

ghost use Rattle.std.specs.Prelude.{◌≡◌};
ghost use Rattle.book_answers.specs.Calls.{area_number, book_number, book_place, no_account};
ghost use Rattle.book_answers.specs.declared.BookError.TheVariants.{Area, Refused};

use answers::Refusal;
use book_slots::Account;

// Why an area is no book.
#[derive(Clone, Copy)]
pub enum AreaError {
    OtherSize,
    Damaged,
}

impl AreaError {
    // The number of the refusal.
    pub fn number(self) -> u32
        ensures { result ≡ area_number self }
    {
        match self {
            AreaError::OtherSize => 40,
            AreaError::Damaged => 41,
        }
    }
}

// Why a call of the book refuses. The refusals of the name call are a case of their own.
#[derive(Clone, Copy)]
pub enum BookError {
    Area(AreaError),
    Refused(Refusal),
    EmptyForm,
    FormTooLong,
    NotFiled,
    Full,
}

impl BookError {
    // The number of the refusal.
    pub fn number(self) -> u32
        ensures { result ≡ book_number self }
    {
        match self {
            BookError::Area(a) => a.number(),
            BookError::Refused(f) => f.number(),
            BookError::EmptyForm => 42,
            BookError::FormTooLong => 43,
            BookError::NotFiled => 44,
            BookError::Full => 45,
        }
    }

    // Its place, which only the refusals of the name call have.
    pub fn place(self) -> usize
        ensures { result ≡ book_place self }
    {
        match self {
            BookError::Refused(f) => f.place(),
            _ => 0,
        }
    }
}

impl From<AreaError> for BookError {
    ghost from_gives = { λ a e. e ≡ Area a };

    fn from(a: AreaError) -> BookError {
        BookError::Area(a)
    }
}

impl From<Refusal> for BookError {
    ghost from_gives = { λ f e. e ≡ Refused f };

    fn from(f: Refusal) -> BookError {
        BookError::Refused(f)
    }
}

// Eight zeros.
pub fn no_account() -> Account
    ensures { result.words ≡ no_account }
{
    Account { words: [0; 8] }
}
