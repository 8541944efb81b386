// The codes of a directive's parts.
ghost use Rattle.std.specs.Prelude.{◌≡◌};
ghost use Rattle.rules.specs.declared.Spec.{Spec};
ghost use Rattle.rules.specs.declared.Spec.TheVariants as kind;
ghost use Rattle.rules.specs.Stored.{code_of, padding_code, flags_code, present, width_value};

use rules::{Combination, Fixed, Flags, Fraction, Name, Number, Offset, Padding, Spec};

// The code of a directive of one kind.
trait Code {
    ghost spec: { Self → Spec };

    fn code(self) -> u8
        ensures { result ≡ code_of (spec self) };
}

impl Code for Number {
    ghost spec = { kind.Number };

    #[tactic(auto, unfolding(rules::specs::Stored::code_of))]
    fn code(self) -> u8 {
        match self {
            Number::Year4Digits => b'Y',
            Number::YearDiv100 => b'C',
            Number::YearRem100 => b'y',
            Number::Month => b'm',
            Number::MonthDayZero => b'd',
            Number::MonthDaySpace => b'e',
            Number::YearDay => b'j',
            Number::Hour24hZero => b'H',
            Number::Hour24hSpace => b'k',
            Number::Hour12hZero => b'I',
            Number::Hour12hSpace => b'l',
            Number::Minute => b'M',
            Number::Second => b'S',
            Number::WeekDayFrom1 => b'u',
            Number::WeekDayFrom0 => b'w',
            Number::YearIso8601 => b'G',
            Number::YearIso8601Rem100 => b'g',
            Number::WeekNumberIso8601 => b'V',
            Number::WeekNumberFromSunday => b'U',
            Number::WeekNumberFromMonday => b'W',
            Number::SecondsSinceEpoch => b's',
        }
    }
}

impl Code for Name {
    ghost spec = { kind.Name };

    #[tactic(auto, unfolding(rules::specs::Stored::code_of))]
    fn code(self) -> u8 {
        match self {
            Name::MonthName => b'B',
            Name::MonthNameAbbr => b'b',
            Name::MeridianLower => b'P',
            Name::MeridianUpper => b'p',
            Name::WeekDayName => b'A',
            Name::WeekDayNameAbbr => b'a',
        }
    }
}

impl Code for Fraction {
    ghost spec = { kind.Fraction };

    #[tactic(auto, unfolding(rules::specs::Stored::code_of))]
    fn code(self) -> u8 {
        match self {
            Fraction::MilliSecond => b'L',
            Fraction::FractionalSecond => b'N',
        }
    }
}

impl Code for Offset {
    ghost spec = { kind.Offset };

    #[tactic(auto, unfolding(rules::specs::Stored::code_of))]
    fn code(self) -> u8 {
        match self {
            Offset::TimeZoneOffsetHourMinute => b'z',
            Offset::TimeZoneOffsetHourMinuteColon => 1,
            Offset::TimeZoneOffsetHourMinuteSecondColon => 2,
            Offset::TimeZoneOffsetColonMinimal => 3,
        }
    }
}

impl Code for Fixed {
    ghost spec = { kind.Fixed };

    #[tactic(auto, unfolding(rules::specs::Stored::code_of))]
    fn code(self) -> u8 {
        match self {
            Fixed::Newline => b'n',
            Fixed::Tabulation => b't',
            Fixed::Percent => b'%',
        }
    }
}

impl Code for Combination {
    ghost spec = { kind.Combination };

    #[tactic(auto, unfolding(rules::specs::Stored::code_of))]
    fn code(self) -> u8 {
        match self {
            Combination::CombinationDateTime => b'c',
            Combination::CombinationDate => b'D',
            Combination::CombinationIso8601 => b'F',
            Combination::CombinationVmsDate => b'v',
            Combination::CombinationTime12h => b'r',
            Combination::CombinationHourMinute24h => b'R',
            Combination::CombinationTime24h => b'T',
        }
    }
}

// The first letter of the table that means it, or the number of colons of an offset form.
#[tactic(auto, unfolding(rules::specs::Stored::code_of))]
pub fn code_of(spec: Spec) -> u8
    ensures { result ≡ code_of spec }
{
    match spec {
        Spec::Number(n) => n.code(),
        Spec::Name(n) => n.code(),
        Spec::Fraction(f) => f.code(),
        Spec::Offset(o) => o.code(),
        Spec::TimeZoneName => b'Z',
        Spec::Fixed(f) => f.code(),
        Spec::Combination(c) => c.code(),
    }
}

pub fn padding_code(padding: Padding) -> u8
    ensures { result ≡ padding_code padding }
{
    padding as u8
}

pub fn flags_code(flags: Flags) -> u8
    ensures { result ≡ flags_code flags }
{
    u8::from(flags.left) + u8::from(flags.change) * 2 + u8::from(flags.upper) * 4
}

pub fn present_code(width: Option<usize>) -> u8
    ensures { result ≡ present width }
{
    u8::from(width.is_some())
}

pub fn width_value(width: Option<usize>) -> usize
    ensures { result ≡ width_value width }
{
    width.unwrap_or(0)
}
