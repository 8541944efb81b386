// Ports week.rs: week numbers, and the week-based year and week number of ISO 8601.
#![tactic(auto)]

ghost use Rattle.std.specs.Prelude.{◌≡◌, ◌≤◌, pos};
ghost use Rattle.rules.specs.Calendar.{is_leap, days_in};
ghost use Rattle.rules.specs.Week.{week_number, iso_week, in_last_week, current_or_next, iso8601_year_and_week_number};
ghost use Rattle.week.specs.Start.{start_of};
ghost use Rattle.week.specs.Inner.{original, FirstWeek, InYear, FromWeekOne, Restarts};

use rules::IsoWeek;

#[derive(Clone, Copy)]
pub enum WeekStart {
    Sunday = 0,
    Monday = 1,
}

// The week number, beginning at the provided start day of the week.
pub fn week_number(week_day: u8, year_day_1: u16, week_start: WeekStart) -> u8
    requires { (week_day ≤ 6) × (1 ≤ year_day_1) × (year_day_1 ≤ 366) }
    ensures { result ≡ week_number (start_of week_start) week_day year_day_1 }
{
    let year_day = year_day_1 - 1;
    let start_of_first_week = (year_day + 7 - week_day as u16 + week_start as u16) % 7;
    ((year_day + 7 - start_of_first_week) / 7) as u8
}

// The ISO 8601 week-based year and week number. "The first week of YYYY starts with a Monday and includes YYYY-01-04.
// The days in the year before the first week are in the last week of the previous year."
pub fn iso_8601_year_and_week_number(year: i32, week_day: u8, year_day_1: u16) -> IsoWeek
    requires { (week_day ≤ 6) × (1 ≤ year_day_1) × (year_day_1 ≤ days_in year) }
    ensures { result ≡ iso_week year week_day year_day_1 }
{
    // Neither before week one nor in a week that may be the next year's first.
    let year_day = year_day_1 - 1;
    let start = start_of_first_week(week_day as u16, year_day);
    if start <= year_day + 7 {
        let week = (year_day + 14 - start) / 7;
        if week < 52 {
            return IsoWeek {
                year: year as i64,
                week: week as u8,
            };
        }
    }
    year_and_week_number(year as i64, week_day as u16, year_day_1, 1)
}

// The original's function, with the number of times that it may still start again.
fn year_and_week_number(year: i64, week_day: u16, year_day_1: u16, restarts: u8) -> IsoWeek
    requires { Restarts year week_day year_day_1 restarts }
    ensures { original result ≡ iso8601_year_and_week_number restarts year (pos week_day) (pos year_day_1) }
{
    let year_day = year_day_1 - 1;
    let start_of_first_week = start_of_first_week(week_day, year_day);
    if year_day + 7 < start_of_first_week {
        let previous_year = year - 1;
        let previous_year_day = days_in(previous_year) + year_day;
        return year_and_week_number(previous_year, week_day, previous_year_day + 1, restarts - 1);
    }
    current_or_next(year, week_day, year_day, start_of_first_week)
}

// The original's number, which is from -3 to 3, plus 7.
fn start_of_first_week(week_day: u16, year_day: u16) -> u16
    requires { (week_day ≤ 6) × (year_day ≤ 368) }
    ensures { FirstWeek week_day year_day result }
{
    let start_of_first_week = (year_day + 8 - week_day) % 7;
    if start_of_first_week > 3 {
        start_of_first_week
    } else {
        start_of_first_week + 7
    }
}

// The original's part for a day that is not before week one.
fn current_or_next(year: i64, week_day: u16, year_day: u16, start_of_first_week: u16) -> IsoWeek
    requires { FromWeekOne year week_day year_day start_of_first_week }
    ensures { original result ≡ current_or_next year (pos week_day) (pos year_day) }
{
    let week_number = (year_day + 14 - start_of_first_week) / 7;
    if week_number >= 52 {
        if in_last_week(year, week_day, year_day) {
            return IsoWeek {
                year: year + 1,
                week: 1,
            };
        }
    }
    IsoWeek {
        year,
        week: week_number as u8,
    }
}

// The week has its Monday in `year` and its Thursday in the next.
fn in_last_week(year: i64, week_day: u16, year_day: u16) -> bool
    requires { InYear year week_day year_day }
    ensures { result ≡ in_last_week year (pos week_day) (pos year_day) }
{
    let last_year_day = days_in(year) - 1;
    let week_day_of_last_year_day = (week_day + last_year_day + 7 - year_day) % 7;
    if 1 <= week_day_of_last_year_day && week_day_of_last_year_day <= 3 {
        let last_monday = last_year_day - (week_day_of_last_year_day - 1);
        return year_day >= last_monday;
    }
    false
}

pub fn days_in(year: i64) -> u16
    ensures { result ≡ days_in year }
{
    if is_leap_year(year) { 366 } else { 365 }
}

fn is_leap_year(year: i64) -> bool
    ensures { result ≡ is_leap year }
{
    year % 400 == 0 || (year % 4 == 0 && year % 100 != 0)
}
