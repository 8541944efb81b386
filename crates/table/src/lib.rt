// Ports the table of directives of mod.rs and its checks of assert.rs, and the letters before which `E` and `O` are skipped.
#![tactic(auto)]

ghost use Rattle.std.specs.Prelude.{◌≡◌, true};
ghost use Rattle.rules.specs.Reading.{letters, member, modified, possible_specs, rising, spec_of};

use rules::{Combination, Fixed, Fraction, Modifier, Name, Number, Offset, Spec};

// The letters of the directives, in order.
const POSSIBLE_SPECS: [u8; 44] = *b"%ABCDFGHILMNPRSTUVWXYZabcdeghjklmnprstuvwxyz";

const EXT_E_SPECS: [u8; 6] = *b"CXYcxy";

const EXT_O_SPECS: [u8; 15] = *b"HIMSUVWdeklmuwy";

#[tactic(auto, unfolding(rules::specs::Reading::possible_specs))]
fn possible_specs() -> [u8; 44]
    ensures letters { result ≡ letters possible_specs }
    ensures sorted { rising result ≡ true }
{
    POSSIBLE_SPECS
}

// Whether a byte stands in a sorted table.
#[tactic(auto, using(crate::proofs::Sorted::found))]
fn is_among(table: &[u8], b: u8) -> bool
    requires { rising table.now ≡ true }
    ensures { result ≡ member b table.now }
{
    table.binary_search(&b).is_ok()
}

// Whether a letter is that of a directive.
pub fn is_possible(b: u8) -> bool
    ensures { result ≡ member b (letters possible_specs) }
{
    let table = possible_specs();
    is_among(&table, b)
}

// The directive of a letter.
#[tactic(auto, unfolding(rules::specs::Reading::look_up, rules::specs::Reading::possible_specs))]
pub fn spec_of(b: u8) -> Option<Spec>
    ensures { result ≡ spec_of b }
{
    match b {
        b'%' => Some(Spec::Fixed(Fixed::Percent)),
        b'A' => Some(Spec::Name(Name::WeekDayName)),
        b'B' => Some(Spec::Name(Name::MonthName)),
        b'C' => Some(Spec::Number(Number::YearDiv100)),
        b'D' => Some(Spec::Combination(Combination::CombinationDate)),
        b'F' => Some(Spec::Combination(Combination::CombinationIso8601)),
        b'G' => Some(Spec::Number(Number::YearIso8601)),
        b'H' => Some(Spec::Number(Number::Hour24hZero)),
        b'I' => Some(Spec::Number(Number::Hour12hZero)),
        b'L' => Some(Spec::Fraction(Fraction::MilliSecond)),
        b'M' => Some(Spec::Number(Number::Minute)),
        b'N' => Some(Spec::Fraction(Fraction::FractionalSecond)),
        b'P' => Some(Spec::Name(Name::MeridianLower)),
        b'R' => Some(Spec::Combination(Combination::CombinationHourMinute24h)),
        b'S' => Some(Spec::Number(Number::Second)),
        b'T' => Some(Spec::Combination(Combination::CombinationTime24h)),
        b'U' => Some(Spec::Number(Number::WeekNumberFromSunday)),
        b'V' => Some(Spec::Number(Number::WeekNumberIso8601)),
        b'W' => Some(Spec::Number(Number::WeekNumberFromMonday)),
        b'X' => Some(Spec::Combination(Combination::CombinationTime24h)),
        b'Y' => Some(Spec::Number(Number::Year4Digits)),
        b'Z' => Some(Spec::TimeZoneName),
        b'a' => Some(Spec::Name(Name::WeekDayNameAbbr)),
        b'b' => Some(Spec::Name(Name::MonthNameAbbr)),
        b'c' => Some(Spec::Combination(Combination::CombinationDateTime)),
        b'd' => Some(Spec::Number(Number::MonthDayZero)),
        b'e' => Some(Spec::Number(Number::MonthDaySpace)),
        b'g' => Some(Spec::Number(Number::YearIso8601Rem100)),
        b'h' => Some(Spec::Name(Name::MonthNameAbbr)),
        b'j' => Some(Spec::Number(Number::YearDay)),
        b'k' => Some(Spec::Number(Number::Hour24hSpace)),
        b'l' => Some(Spec::Number(Number::Hour12hSpace)),
        b'm' => Some(Spec::Number(Number::Month)),
        b'n' => Some(Spec::Fixed(Fixed::Newline)),
        b'p' => Some(Spec::Name(Name::MeridianUpper)),
        b'r' => Some(Spec::Combination(Combination::CombinationTime12h)),
        b's' => Some(Spec::Number(Number::SecondsSinceEpoch)),
        b't' => Some(Spec::Fixed(Fixed::Tabulation)),
        b'u' => Some(Spec::Number(Number::WeekDayFrom1)),
        b'v' => Some(Spec::Combination(Combination::CombinationVmsDate)),
        b'w' => Some(Spec::Number(Number::WeekDayFrom0)),
        b'x' => Some(Spec::Combination(Combination::CombinationDate)),
        b'y' => Some(Spec::Number(Number::YearRem100)),
        b'z' => Some(Spec::Offset(Offset::TimeZoneOffsetHourMinute)),
        _ => None,
    }
}

// Whether `E` or `O` before the letter b is skipped.
#[tactic(auto, unfolding(rules::specs::Reading::modified))]
pub fn skips(modifier: Modifier, b: u8) -> bool
    ensures { result ≡ member b (modified modifier) }
{
    match modifier {
        Modifier::E => {
            let table = EXT_E_SPECS;
            is_among(&table, b)
        }
        Modifier::O => {
            let table = EXT_O_SPECS;
            is_among(&table, b)
        }
    }
}
