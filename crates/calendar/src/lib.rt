// Added to the original: a record from a count of seconds since 1970-01-01 UTC, and back, by the proleptic Gregorian calendar.
//
// Inside, years and days are counted from a January 1 that lies 730,700,000 times 400 years before that of year 1: before every day of an i64's seconds.
#![tactic(auto)]

ghost use Rattle.std.specs.Prelude.{◌≡◌, ◌+◌, ◌<◌, ◌≤◌};
ghost use Rattle.std.specs.Int.Signed.{mag};
ghost use Rattle.rules.specs.Decimal.{floor_div, floor_mod};
ghost use Rattle.rules.specs.Calendar.{days_before};
ghost use Rattle.rules.specs.Counter.{dated_reply, counted_reply, DatedBy, CountedBy};
ghost use Rattle.rules.proofs.Shift.{Is};
ghost use Rattle.rules.proofs.CalendarLaws.{starts};
ghost use Rattle.rules.proofs.Dates.{InYear, InMonth};
ghost use Rattle.calendar.specs.Inner.{DateFor, DayFor};

use rules::{Record, Refusal};

// The days from there to 1970-01-01, and the years to year 0.
const EPOCH: u64 = 106753078619162;

const YEARS: u64 = 292279999999;

#[derive(Clone, Copy)]
struct Moment {
    day: i64,
    second: u64,
}

#[derive(Clone, Copy)]
struct Date {
    year: i64,
    month: u8,
    day: u8,
    day_of_week: u8,
    day_of_year: u16,
}

// A number plus `by`, and back.
fn raised(x: i64, by: u64) -> u64
    requires { (mag x < by) × (by < 281474976710656) }
    ensures { Is x by result × (result < by + by) }
{
    let m = numbers::magnitude(x);
    if x < 0 { by - 1 - m } else { by + m }
}

fn lowered(n: u64, by: u64) -> i64
    requires { (n < 281474976710656) × (by < 281474976710656) }
    ensures { Is result by n }
{
    n as i64 - by as i64
}

// The day of a local time, and the second of that day.
fn moment_of(local: i64) -> Moment
    ensures { (result.day ≡ floor_div local 86400) × (result.second ≡ floor_mod local 86400) }
{
    let day = local.div_euclid(86400);
    let second = local.rem_euclid(86400) as u64;
    Moment { day, second }
}

// The days of z years.
#[tactic(auto, unfolding(rules::proofs::CalendarLaws::starts))]
fn days_of(z: u64) -> u64
    requires { z < 1099511627776 }
    ensures { result ≡ starts z }
{
    365 * z + z / 4 - z / 100 + z / 400
}

// The years that have passed on day n.
fn year_at(n: u64) -> u64
    requires { n < 281474976710656 }
    ensures { InYear n result }
{
    let guess = 400 * n / 146097;
    if n < days_of(guess + 1) {
        guess
    } else {
        guess + 1
    }
}

// The month of day x of the year, from 0.
fn month_at(x: u64, leap: u64) -> u64
    requires { (x < 365 + leap) × (leap ≤ 1) }
    ensures { InMonth leap x result }
{
    let march = 59 + leap;
    if x < march {
        x / 31 + 1
    } else {
        (5 * (x - march) + 2) / 153 + 3
    }
}

// The days before month m. Month 13 begins the next year.
#[tactic(auto, using(crate::proofs::MonthLaws::before_march, crate::proofs::MonthLaws::from_march))]
fn month_start(m: u64, leap: u64) -> u64
    requires { (1 ≤ m) × (m ≤ 13) × (leap ≤ 1) }
    ensures { (result ≡ days_before leap m) × (result ≤ 366) }
{
    if m < 3 {
        31 * (m - 1)
    } else {
        (153 * m - 457) / 5 + 59 + leap
    }
}

fn date_at(day: i64) -> Date
    requires { mag day < 106753078619162 }
    ensures { DateFor day result }
{
    let n = raised(day, EPOCH);
    let z = year_at(n);
    let start = days_of(z);
    let leap = days_of(z + 1) - start - 365;
    let x = n - start;
    let m = month_at(x, leap);
    let month = m as u8;
    let d = (x - month_start(m, leap) + 1) as u8;
    let day_of_week = ((n + 1) % 7) as u8;
    let day_of_year = (x + 1) as u16;
    Date {
        year: lowered(z, YEARS),
        month,
        day: d,
        day_of_week,
        day_of_year,
    }
}

// The number of a date, from 1970-01-01.
fn day_at(year: i32, month: u8, day: u8) -> Option<i64>
    ensures { DayFor year month day result }
{
    if month < 1 || month > 12 || day < 1 {
        return None;
    }
    let z = raised(year as i64, YEARS);
    let start = days_of(z);
    let leap = days_of(z + 1) - start - 365;
    let m = month as u64;
    let before = month_start(m, leap);
    let d = day as u64;
    if before + d > month_start(m + 1, leap) {
        return None;
    }
    Some(lowered(start + before + d - 1, EPOCH))
}

pub fn record_from_count(
    count: i64,
    utc_offset: i32,
    nanoseconds: u32,
    is_utc: bool,
) -> Result<Record, Refusal>
    ensures { DatedBy count utc_offset nanoseconds is_utc (dated_reply result) }
{
    if nanoseconds > 999_999_999 {
        return Err(Refusal::InvalidTime);
    }
    let local = count
        .checked_add(i64::from(utc_offset))
        .ok_or(Refusal::OutOfRange)?;
    let moment = moment_of(local);
    let date = date_at(moment.day);
    let Ok(year) = i32::try_from(date.year) else {
        return Err(Refusal::OutOfRange);
    };
    let s = moment.second;
    let hour = (s / 3600) as u8;
    let minute = (s / 60 % 60) as u8;
    let second = (s % 60) as u8;
    Ok(Record {
        year,
        month: date.month,
        day: date.day,
        hour,
        minute,
        second,
        nanoseconds,
        day_of_week: date.day_of_week,
        day_of_year: date.day_of_year,
        to_int: count,
        is_utc,
        utc_offset,
    })
}

// The date, the time and the offset are read.
pub fn count_from_record(record: Record) -> Result<i64, Refusal>
    ensures { CountedBy «record» (counted_reply result) }
{
    let hour = record.hour as u64;
    let minute = record.minute as u64;
    let second = record.second as u64;
    if hour > 23 || minute > 59 || second > 59 {
        return Err(Refusal::InvalidTime);
    }
    let day = day_at(record.year, record.month, record.day).ok_or(Refusal::InvalidTime)?;
    let s = hour * 3600 + minute * 60 + second;
    let local = day * 86400 + s as i64;
    let offset = record.utc_offset as i64;
    Ok(local - offset)
}
