// The refusals, each with its number (rules 1.1 to 1.21 and 1.28 to 1.33).
ghost use Rattle.basis.specs.Refusal.{NumberIs};

// Why something is refused, with its number in documents 01 and 02. The table of section 1 in docs/RULES.md says when.
#[derive(Clone, Copy, PartialEq, Eq)]
pub enum Refusal {
    CommandTooShort = 1,
    CopyTooLong = 2,
    NoClass = 3,
    ShortLengths = 4,
    ExtendedLengths = 5,
    NameEmpty = 6,
    NameTooLong = 7,
    TruncatedAboveName = 8,
    NationalTooShort = 9,
    InternationalTooShort = 10,
    EndReached = 11,
    Unreadable = 12,
    DataTooLong = 13,
    NoRoomForPiece = 14,
    ExtendedUnsupported = 15,
    DoesNotFit = 16,
    OtherChain = 17,
    RoomExceeded = 18,
    ValueTooLong = 19,
    InputMalformed = 20,
    ZeroLcWithLe = 21,
    ResponseTooShort = 22,
    ResponseRoomExceeded = 23,
    RecordTooLarge = 24,
    NotAnIndex = 25,
    NotAProfile = 26,
    NoSuchDate = 27,
}

impl Refusal {
    // Its number.
    pub fn number(self) -> u8
        ensures { NumberIs self result }
    {
        self as u8
    }
}
