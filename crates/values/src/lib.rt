// Ports the arms of `Piece::fmt` of mod.rs that print a number: which fields they check, the number, its default width and fill.
#![tactic(auto)]

ghost use Rattle.std.specs.Prelude.{◌≡◌, true, false, ◌≤◌, pos};
ghost use Rattle.rules.specs.Week.{iso_week, week_number};
ghost use Rattle.rules.specs.Writing.{year_width, or_if_zero, hour12};
ghost use Rattle.week.specs.Start.{start_of};
ghost use Rattle.values.specs.Value.{ValueIs};
ghost use Rattle.values.specs.Inner.{Valued, InWeek, Weekly, OfIsoWeek};

use numbers::{Integer, Year};
use printing::year_width;
use rules::{IsoWeek, Number, Record};
use week::WeekStart;

// What a number directive prints. `space`: its own fill is a space. `ok` is no Option: `fill` and `narrow` of `ValueIs` hold on a refusal too.
#[derive(Clone, Copy)]
pub struct Value {
    pub ok: bool,
    pub number: i64,
    pub width: usize,
    pub space: bool,
}

fn or_if_zero(other: u8, n: u8) -> u8
    ensures { result ≡ or_if_zero other n }
{
    if n == 0 { other } else { n }
}

pub fn hour12(hour: u8) -> u8
    ensures { result ≡ hour12 hour }
{
    or_if_zero(12, hour % 12)
}

// Sunday is 7.
pub fn from_1(day_of_week: u8) -> u8
    ensures { result ≡ or_if_zero 7 day_of_week }
{
    or_if_zero(7, day_of_week)
}

// A number whose own fill is zeros.
fn zeros<N: Integer>(ok: bool, number: N, width: usize) -> Value
    requires { width ≤ 5 }
    ensures { Valued ok (N.number number) width false result }
{
    Value {
        ok,
        number: number.into(),
        width,
        space: false,
    }
}

fn year(ok: bool, year: i64) -> Value
    ensures { Valued ok year (year_width year) false result }
{
    zeros(ok, year, year_width(year))
}

// A number whose own fill is spaces.
fn spaces(ok: bool, number: u8) -> Value
    ensures { Valued ok (pos number) 2 true result }
{
    Value {
        space: true,
        ..zeros(ok, number, 2)
    }
}

// The ISO year and week of a day that is in range, else zeros. No Option: a caller has the answer of `fields::week` beside it already.
pub fn iso(record: Record) -> IsoWeek
    ensures { InWeek «record» → result ≡ iso_week «record».year «record».day_of_week «record».day_of_year }
{
    if fields::week(record) {
        week::iso_8601_year_and_week_number(record.year, record.day_of_week, record.day_of_year)
    } else {
        IsoWeek { year: 0, week: 0 }
    }
}

// 0 where the day is not in range: the caller asks that anyway.
pub fn week_of(record: Record, week_start: WeekStart) -> u8
    ensures { InWeek «record» → result ≡ week_number (start_of week_start) «record».day_of_week «record».day_of_year }
{
    if fields::week(record) {
        week::week_number(record.day_of_week, record.day_of_year, week_start)
    } else {
        0
    }
}

// A two-digit number of the weekday and the day of the year.
fn weekly(record: Record, number: u8) -> Value
    ensures { Weekly «record» (pos number) 2 result }
{
    zeros(fields::week(record), number, 2)
}

// The three numbers of the ISO week, so that it is computed at one place.
fn iso_value(number: Number, record: Record) -> Value
    ensures { OfIsoWeek number → ValueIs number «record» result }
{
    let iso = iso(record);
    match number {
        Number::YearIso8601 => year(fields::week(record), iso.year),
        Number::YearIso8601Rem100 => weekly(record, iso.year.rem_euclid_100()),
        _ => weekly(record, iso.week),
    }
}

pub fn value_of(number: Number, record: Record) -> Value
    ensures { ValueIs number «record» result }
{
    match number {
        Number::Year4Digits => year(true, record.year as i64),
        Number::YearDiv100 => zeros(true, numbers::div_euclid_100(record.year), 2),
        Number::YearRem100 => zeros(true, record.year.rem_euclid_100(), 2),
        Number::Month => zeros(fields::month(record), record.month, 2),
        Number::MonthDayZero => zeros(fields::day(record), record.day, 2),
        Number::MonthDaySpace => spaces(fields::day(record), record.day),
        Number::YearDay => zeros(fields::day_of_year(record), record.day_of_year, 3),
        Number::Hour24hZero => zeros(fields::hour(record), record.hour, 2),
        Number::Hour24hSpace => spaces(fields::hour(record), record.hour),
        Number::Hour12hZero => zeros(fields::hour(record), hour12(record.hour), 2),
        Number::Hour12hSpace => spaces(fields::hour(record), hour12(record.hour)),
        Number::Minute => zeros(fields::minute(record), record.minute, 2),
        Number::Second => zeros(fields::second(record), record.second, 2),
        Number::WeekDayFrom1 => zeros(fields::day_of_week(record), from_1(record.day_of_week), 1),
        Number::WeekDayFrom0 => zeros(fields::day_of_week(record), record.day_of_week, 1),
        Number::YearIso8601 | Number::YearIso8601Rem100 | Number::WeekNumberIso8601 => {
            iso_value(number, record)
        }
        Number::WeekNumberFromSunday => weekly(record, week_of(record, WeekStart::Sunday)),
        Number::WeekNumberFromMonday => weekly(record, week_of(record, WeekStart::Monday)),
        Number::SecondsSinceEpoch => zeros(true, record.to_int, 1),
    }
}
