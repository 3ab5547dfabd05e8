// Why a function refuses. The papers number the first twelve reasons; C callers and the job's bytes use the numbers.
ghost use Rattle.std.specs.Prelude.{◌≡◌};
ghost use Rattle.linalg.specs.Answer.{number};

#[derive(Clone, Copy, PartialEq, Eq)]
pub enum Refusal {
    NegativeAngle, // a squared angle below zero
    ZeroScale, // e is +0 or -0 in the block inverse
    NoSuchEntry, // a row or column of a 3x3 matrix above 2
    TooManyTerms, // more terms than the table of reciprocals allows
    BadLength, // a list of points or tangents of a wrong length
    UnknownMark, // two bytes that are not a mark of the job
    CutInput, // the input ends inside a mark or a record
    NotFinite, // a NaN or an infinity where no other number would do
    FramesDiffer, // two poses whose frames do not match
    SameTake, // the take that is already kept for its sheet
    NoRoom, // no slot for another sheet
    NeverKept, // a sheet for which nothing is kept
    ListLength, // a list of a C function of the wrong length
}

impl Refusal {
    pub fn number(self) -> u8
        ensures { result ≡ number self }
    {
        match self {
            Refusal::NegativeAngle => 1,
            Refusal::ZeroScale => 2,
            Refusal::NoSuchEntry => 3,
            Refusal::TooManyTerms => 4,
            Refusal::BadLength => 5,
            Refusal::UnknownMark => 6,
            Refusal::CutInput => 7,
            Refusal::NotFinite => 8,
            Refusal::FramesDiffer => 9,
            Refusal::SameTake => 10,
            Refusal::NoRoom => 11,
            Refusal::NeverKept => 12,
            Refusal::ListLength => 100,
        }
    }
}
