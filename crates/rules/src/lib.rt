// The plain types that every crate shares. What each means is in specs/, in the words of the precise rules.
#![tactic(auto)]

ghost use Rattle.std.specs.Prelude.{◌≡◌, ◌||◌};
ghost use Rattle.rules.specs.Reading.{no_flags, with_flag, has_flag};
ghost use Rattle.rules.specs.Refusal.{number_of, refusal_at, refusal_with};

use std::fmt;

// The longest inputs, in bytes.
pub const LONGEST_FORMAT: usize = 4096;

pub const LONGEST_ZONE: usize = 64;

pub const LONGEST_BUFFER: usize = 65536;

// A time, flat: the fields are independent. The zone name is a byte slice beside it, and not in it: `formatted` and the C entries take them apart.
#[derive(Clone, Copy)]
pub struct Record {
    pub year: i32,
    pub month: u8,
    pub day: u8,
    pub hour: u8,
    pub minute: u8,
    pub second: u8,
    pub nanoseconds: u32,
    pub day_of_week: u8,
    pub day_of_year: u16,
    pub to_int: i64,
    pub is_utc: bool,
    pub utc_offset: i32,
}

#[derive(Clone, Copy)]
pub enum Flag {
    LeftPadding,
    ChangeCase,
    UpperCase,
}

#[derive(Clone, Copy)]
pub struct Flags {
    pub left: bool,
    pub change: bool,
    pub upper: bool,
}

impl Flags {
    pub fn new() -> Flags
        ensures { result ≡ no_flags }
    {
        Flags {
            left: false,
            change: false,
            upper: false,
        }
    }

    pub fn set(mut self, flag: Flag) -> Flags
        ensures { result ≡ with_flag self flag }
    {
        match flag {
            Flag::LeftPadding => self.left = true,
            Flag::ChangeCase => self.change = true,
            Flag::UpperCase => self.upper = true,
        }
        self
    }

    pub fn contains(self, flag: Flag) -> bool
        ensures { result ≡ has_flag self flag }
    {
        match flag {
            Flag::LeftPadding => self.left,
            Flag::ChangeCase => self.change,
            Flag::UpperCase => self.upper,
        }
    }

    pub fn has_change_or_upper_case(self) -> bool
        ensures { result ≡ (self.change || self.upper) }
    {
        self.contains(Flag::ChangeCase) || self.contains(Flag::UpperCase)
    }
}

#[derive(Clone, Copy)]
pub enum Padding {
    Left,
    Spaces,
    Zeros,
}

// The directives by kind, the original's names in each kind.
#[derive(Clone, Copy)]
pub enum Number {
    Year4Digits,
    YearDiv100,
    YearRem100,
    Month,
    MonthDayZero,
    MonthDaySpace,
    YearDay,
    Hour24hZero,
    Hour24hSpace,
    Hour12hZero,
    Hour12hSpace,
    Minute,
    Second,
    WeekDayFrom1,
    WeekDayFrom0,
    YearIso8601,
    YearIso8601Rem100,
    WeekNumberIso8601,
    WeekNumberFromSunday,
    WeekNumberFromMonday,
    SecondsSinceEpoch,
}

#[derive(Clone, Copy)]
pub enum Name {
    MonthName,
    MonthNameAbbr,
    MeridianLower,
    MeridianUpper,
    WeekDayName,
    WeekDayNameAbbr,
}

#[derive(Clone, Copy)]
pub enum Fraction {
    MilliSecond,
    FractionalSecond,
}

#[derive(Clone, Copy)]
pub enum Offset {
    TimeZoneOffsetHourMinute,
    TimeZoneOffsetHourMinuteColon,
    TimeZoneOffsetHourMinuteSecondColon,
    TimeZoneOffsetColonMinimal,
}

#[derive(Clone, Copy)]
pub enum Fixed {
    Newline,
    Tabulation,
    Percent,
}

#[derive(Clone, Copy)]
pub enum Combination {
    CombinationDateTime,
    CombinationDate,
    CombinationIso8601,
    CombinationVmsDate,
    CombinationTime12h,
    CombinationHourMinute24h,
    CombinationTime24h,
}

#[derive(Clone, Copy)]
pub enum Spec {
    Number(Number),
    Name(Name),
    Fraction(Fraction),
    Offset(Offset),
    TimeZoneName,
    Fixed(Fixed),
    Combination(Combination),
}

// A week-based year and its week number.
#[derive(Clone, Copy)]
pub struct IsoWeek {
    pub year: i64,
    pub week: u8,
}

// A directive. `skipped`: an `E` or `O` stood before its letter.
#[derive(Clone, Copy)]
pub struct Piece {
    pub width: Option<usize>,
    pub padding: Padding,
    pub flags: Flags,
    pub spec: Spec,
    pub skipped: bool,
}

// What stands at a percent sign: a directive or an echo, and where the format goes on; or the format ends inside it.
#[derive(Clone, Copy)]
pub enum Parsed {
    Directive(Piece, usize),
    Echo(usize),
    Cut,
}

#[derive(Clone, Copy)]
pub struct Options {
    pub padding: Padding,
    pub flags: Flags,
}

#[derive(Clone, Copy)]
pub enum Modifier {
    E,
    O,
}

// Where the reading of a directive stands between two bytes.
#[derive(Clone, Copy)]
pub enum Reading {
    InFlags(Options),
    InWidth(Options, usize),
    AtModifier(Options, Option<usize>, Modifier),
    InColons(Options, Option<usize>, usize),
}

// What one more byte does: the directive goes on; it ends with this byte, as a piece or as an echo; it ended before it, as an echo.
#[derive(Clone, Copy)]
pub enum Turn {
    More(Reading),
    Found(Piece),
    Echoed,
    Unread,
}

// The refusal table: each refusal and its number.
#[derive(Clone, Copy, Debug, PartialEq, Eq)]
pub enum Refusal {
    InvalidTime = 1,
    InvalidFormatString = 2,
    FormattedStringTooLarge = 3,
    WriteZero = 4,
    InputTooLong = 5,
    NoBuffer = 6,
    OutOfRange = 7,
    LengthMismatch = 10,
    BadStored = 11,
}

impl From<Refusal> for u32 {
    ghost from_gives = { λ refusal number. number ≡ number_of refusal };

    #[tactic(auto, unfolding(crate::specs::Refusal::number_of))]
    fn from(refusal: Refusal) -> u32 {
        refusal as u32
    }
}

// A number that is none of the table's.
#[derive(Clone, Copy, Debug, PartialEq, Eq)]
pub struct UnknownNumber(pub usize);

impl TryFrom<usize> for Refusal {
    type Error = UnknownNumber;

    ghost try_from_gives = { λ number answer. answer ≡ refusal_with number };

    #[tactic(auto, unfolding(crate::specs::Refusal::refusal_with))]
    fn try_from(number: usize) -> Result<Refusal, UnknownNumber> {
        match number {
            1 => Ok(Refusal::InvalidTime),
            2 => Ok(Refusal::InvalidFormatString),
            3 => Ok(Refusal::FormattedStringTooLarge),
            4 => Ok(Refusal::WriteZero),
            5 => Ok(Refusal::InputTooLong),
            6 => Ok(Refusal::NoBuffer),
            7 => Ok(Refusal::OutOfRange),
            10 => Ok(Refusal::LengthMismatch),
            11 => Ok(Refusal::BadStored),
            _ => Err(UnknownNumber(number)),
        }
    }
}

// The refusal with a number of the table; with any other it is WriteZero.
#[tactic(auto, using(crate::proofs::OneAnswer::refusal_or))]
pub fn refusal_of(number: usize) -> Refusal
    ensures { result ≡ refusal_at number }
{
    Refusal::try_from(number).unwrap_or(Refusal::WriteZero)
}

impl fmt::Display for Refusal {
    fn fmt<W: fmt::Write>(&self, f: &mut fmt::Formatter<W>) -> fmt::Result {
        f.write_str(match self {
            Refusal::InvalidTime => "InvalidTime",
            Refusal::InvalidFormatString => "InvalidFormatString",
            Refusal::FormattedStringTooLarge => "FormattedStringTooLarge",
            Refusal::WriteZero => "WriteZero",
            Refusal::InputTooLong => "InputTooLong",
            Refusal::NoBuffer => "NoBuffer",
            Refusal::OutOfRange => "OutOfRange",
            Refusal::LengthMismatch => "LengthMismatch",
            Refusal::BadStored => "BadStored",
        })
    }
}

// A format that arrives in runs, between two calls: its length; how many bytes are read for good, and how many of the directive that is not
// yet wholly read are kept in the store; how far the text came; the refusal's number, or 0; and whether the end was called. The number is no Option
// of a refusal: a caller may hold any, and the promises of `run`, `end` and `answer_of` are of these too.
#[derive(Clone, Copy)]
pub struct Runs {
    pub total: usize,
    pub passed: usize,
    pub kept: usize,
    pub written: usize,
    pub number: usize,
    pub over: bool,
}

// What a call answers. No Result of an Option: the three answers are of one kind, and C is told them so.
#[derive(Clone, Copy)]
pub enum Progress {
    More,
    Done(usize),
    Refused(Refusal),
}
