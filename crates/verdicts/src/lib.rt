// The faults that 01 and the requests number, and the verdict: a number, its place, and the tag of the element there.
#![tactic(auto)]

ghost use Rattle.std.specs.Prelude.{◌≡◌, Err};
ghost use Rattle.verdicts.specs.Verdicts.{number_of, code_of, tag_number, outright, verdict_of};
ghost use Rattle.verdicts.specs.Output.{answered};

// What can be wrong, in the order of 01's table of numbers.
#[derive(Clone, Copy)]
pub enum Fault {
    UnknownKind,
    NoDate,
    SmallRoom,
    LargeContainer,
    TornSheet,
    NoElement,
    LongNumber,
    OuterTag,
    LengthForm,
    Overrun,
    UnknownTag,
    TagOrder,
    MissingRow,
    ElementLength,
    BadFascn,
    BadUuid,
    BadDate,
    BadFixed,
    BadHeader,
    BadMinutiae,
    BadText,
    BadDer,
    TooDeep,
    BadFace,
    BadIris,
    FascnDiffer,
    BiometricBlock,
    ChuidBlock,
    NeitherHolds,
    TornFolder,
}

// What was found wrong: a fault, its place, and the tag of the element there. 01's numbers that carry no place have the place 0
// and no tag. A byte 00 may stand where a tag should, so no number of a tag can mean none.
#[derive(Clone, Copy)]
pub struct Finding {
    pub fault: Fault,
    pub place: usize,
    pub tag: Option<u64>,
}

// The same in 01's numbers, as every call answers them: 0, 0 and no tag, or the fault's number, its place and its tag.
#[derive(Clone, Copy)]
pub struct Verdict {
    pub number: u64,
    pub place: u64,
    pub tag: Option<u64>,
}

// What a call answers that writes into a lent room: the number, the place, the tag, and the length of what was written.
#[derive(Clone, Copy)]
pub struct Done {
    pub number: u64,
    pub place: u64,
    pub tag: Option<u64>,
    pub length: u64,
}

// The fault's number in 01's table. 8 is withdrawn (2026-12) and 9 never was one: neither is used again.
impl From<Fault> for u64 {
    ghost from_gives = { λ f n. n ≡ number_of f };

    fn from(f: Fault) -> u64 {
        match f {
            Fault::UnknownKind => 1,
            Fault::NoDate => 2,
            Fault::SmallRoom => 3,
            Fault::LargeContainer => 4,
            Fault::TornSheet => 5,
            Fault::NoElement => 6,
            Fault::LongNumber => 7,
            Fault::OuterTag => 10,
            Fault::LengthForm => 11,
            Fault::Overrun => 12,
            Fault::UnknownTag => 13,
            Fault::TagOrder => 14,
            Fault::MissingRow => 15,
            Fault::ElementLength => 16,
            Fault::BadFascn => 17,
            Fault::BadUuid => 18,
            Fault::BadDate => 19,
            Fault::BadFixed => 20,
            Fault::BadHeader => 21,
            Fault::BadMinutiae => 22,
            Fault::BadText => 23,
            Fault::BadDer => 24,
            Fault::TooDeep => 25,
            Fault::BadFace => 26,
            Fault::BadIris => 27,
            Fault::FascnDiffer => 28,
            Fault::BiometricBlock => 29,
            Fault::ChuidBlock => 30,
            Fault::NeitherHolds => 31,
            Fault::TornFolder => 32,
        }
    }
}

// A ruling in 01's numbers: 0, or the fault's number.
pub fn code_of(ruling: Result<(), Fault>) -> u64
    ensures { result ≡ code_of ruling }
{
    match ruling {
        Ok(()) => 0,
        Err(f) => f.into(),
    }
}

// The tag as a number, for a caller who has no enum: 65536 is none, and no tag, which has one byte or two.
pub fn tag_number(tag: Option<u64>) -> u64
    ensures { result ≡ tag_number tag }
{
    tag.unwrap_or(65536)
}

// A finding that is about no element: its place is 0.
impl From<Fault> for Finding {
    ghost from_gives = { λ fault f. f ≡ outright fault };

    fn from(fault: Fault) -> Finding {
        Finding {
            fault,
            place: 0,
            tag: None,
        }
    }
}

impl Verdict {
    // Nothing is wrong.
    pub const CONFORMS: Verdict = Verdict {
        number: 0,
        place: 0,
        tag: None,
    };
}

impl From<Finding> for Verdict {
    ghost from_gives = { λ f v. v ≡ verdict_of (Err f) };

    fn from(f: Finding) -> Verdict {
        Verdict {
            number: f.fault.into(),
            place: f.place as u64,
            tag: f.tag,
        }
    }
}

// A success: so many bytes were written; or a refusal, with its place and its tag.
impl From<Result<usize, Finding>> for Done {
    ghost from_gives = { λ r d. d ≡ answered r };

    fn from(written: Result<usize, Finding>) -> Done {
        match written {
            Ok(length) => Done {
                number: 0,
                place: 0,
                tag: None,
                length: length as u64,
            },
            Err(f) => Done {
                number: f.fault.into(),
                place: f.place as u64,
                tag: f.tag,
                length: 0,
            },
        }
    }
}
