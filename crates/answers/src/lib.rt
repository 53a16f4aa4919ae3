// The answers of the public calls. specs/Values.antt states the number and the values of each case.
#![tactic(auto)]

ghost use Rattle.std.specs.Prelude.{◌≡◌};
ghost use Rattle.answers.specs.Restriction.{barred};
ghost use Rattle.answers.specs.Values.{number_of, place_of, rule_number, unpack_number, name_values, label_values};

// A group's number, counted from 0, and whether it is restricted.
#[derive(Clone, Copy)]
pub struct GroupKind {
    pub number: usize,
    pub restricted: bool,
}

// What a label consists of.
#[derive(Clone, Copy)]
pub enum Kind {
    Emoji,
    Ascii,
    Group(GroupKind),
}

// Why a name or a label is refused. A case that carries a number carries its place: an index of
// the input for the first two, the number of the label for the others.
#[derive(Clone, Copy)]
pub enum Refusal {
    LayoutFault,
    WorkAreaTooSmall,
    InputTooLong,
    NotScalar(usize),
    Disallowed(usize),
    NoTokens(usize),
    WorkedTooLong(usize),
    LowLine(usize),
    Hyphens(usize),
    Fenced(usize),
    LeadingMark(usize),
    NoGroup(usize),
    NsmRun(usize),
    Compound(usize),
    Confusable(usize),
    Restricted(usize),
    BufferTooSmall,
}

// What the name call answers, unless it refuses: the length of the answer and the number of labels.
#[derive(Clone, Copy)]
pub struct AcceptedName {
    pub length: usize,
    pub labels: usize,
}

// What the label call answers, unless it refuses: the length of the answer and the label's kind.
#[derive(Clone, Copy)]
pub struct AcceptedLabel {
    pub length: usize,
    pub kind: Kind,
}

// What the soundness check asks of a table: that it is laid out, and its eight rules, in their order.
#[derive(Clone, Copy)]
pub enum Rule {
    Layout,
    Scalars,
    ValidSet,
    ValidItems,
    Sequences,
    SequencesApart,
    Stable,
    DistinctPairs,
    QuickCheck,
}

// Why a table file is not unpacked.
#[derive(Clone, Copy)]
pub enum UnpackError {
    WrongVersion,
    WrongLength,
    TooLittleRoom,
}

impl Refusal {
    // Its number.
    pub fn number(self) -> u32
        ensures { result ≡ number_of self }
    {
        match self {
            Refusal::LayoutFault => 1,
            Refusal::WorkAreaTooSmall => 2,
            Refusal::InputTooLong => 3,
            Refusal::NotScalar(_) => 4,
            Refusal::Disallowed(_) => 5,
            Refusal::NoTokens(_) => 6,
            Refusal::WorkedTooLong(_) => 7,
            Refusal::LowLine(_) => 8,
            Refusal::Hyphens(_) => 9,
            Refusal::Fenced(_) => 10,
            Refusal::LeadingMark(_) => 11,
            Refusal::NoGroup(_) => 12,
            Refusal::NsmRun(_) => 13,
            Refusal::Compound(_) => 16,
            Refusal::Confusable(_) => 14,
            Refusal::Restricted(_) => 17,
            Refusal::BufferTooSmall => 15,
        }
    }

    // Its place, 0 where it has none.
    pub fn place(self) -> usize
        ensures { result ≡ place_of self }
    {
        match self {
            Refusal::LayoutFault
            | Refusal::WorkAreaTooSmall
            | Refusal::InputTooLong
            | Refusal::BufferTooSmall => 0,
            Refusal::NotScalar(at)
            | Refusal::Disallowed(at)
            | Refusal::NoTokens(at)
            | Refusal::WorkedTooLong(at)
            | Refusal::LowLine(at)
            | Refusal::Hyphens(at)
            | Refusal::Fenced(at)
            | Refusal::LeadingMark(at)
            | Refusal::NoGroup(at)
            | Refusal::NsmRun(at)
            | Refusal::Compound(at)
            | Refusal::Confusable(at)
            | Refusal::Restricted(at) => at,
        }
    }
}

impl Rule {
    // Its number: 1 to 8 of the rules, 0 of the layout.
    pub fn number(self) -> u32
        ensures { result ≡ rule_number self }
    {
        match self {
            Rule::Layout => 0,
            Rule::Scalars => 1,
            Rule::ValidSet => 2,
            Rule::ValidItems => 3,
            Rule::Sequences => 4,
            Rule::SequencesApart => 5,
            Rule::Stable => 6,
            Rule::DistinctPairs => 7,
            Rule::QuickCheck => 8,
        }
    }
}

impl UnpackError {
    // Its number.
    pub fn number(self) -> u32
        ensures { result ≡ unpack_number self }
    {
        match self {
            UnpackError::WrongVersion => 20,
            UnpackError::WrongLength => 21,
            UnpackError::TooLittleRoom => 22,
        }
    }
}

impl Kind {
    // Whether the setting (0 off, else on) bars a label of this kind: one of a group that is restricted.
    pub fn is_barred(self, setting: u32) -> bool
        ensures { result ≡ barred setting self }
    {
        if setting == 0 {
            return false;
        }
        match self {
            Kind::Emoji => false,
            Kind::Ascii => false,
            Kind::Group(g) => g.restricted,
        }
    }
}

// The length that the name call answers, 0 beside a refusal. A function for each answer and no `map_or`: what its closure says is out of the reach of
// the callers' proofs.
pub fn name_length(answer: Result<AcceptedName, Refusal>) -> usize
    ensures { result ≡ (name_values answer).length }
{
    match answer {
        Ok(name) => name.length,
        Err(_) => 0,
    }
}

// The length that the label call answers, 0 beside a refusal.
pub fn label_length(answer: Result<AcceptedLabel, Refusal>) -> usize
    ensures { result ≡ (label_values answer).length }
{
    match answer {
        Ok(label) => label.length,
        Err(_) => 0,
    }
}
