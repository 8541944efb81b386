// Ports check.rs: whether a field is in its range, and what a directive's check comes to.
#![tactic(auto)]

ghost use Rattle.std.specs.Prelude.{◌≡◌, List, [], ◌∷◌, ℕ};
ghost use Rattle.rules.specs.Record.{ok_field, all_ok, zone_byte_ok, zone_ok, last_day_of, month, day, hour, minute, second, nanoseconds, weekday, day_of_year};
ghost use Rattle.rules.specs.Refusal.{number_in_check};
ghost use Rattle.rules.specs.Writing.{combination_fields, verdict};
ghost use Rattle.rules.specs.declared.Combination.TheVariants.{CombinationDateTime};

use rules::{Record, Refusal};

// What the check of a directive comes to.
#[tactic(auto, unfolding(rules::specs::Writing::verdict, rules::specs::Refusal::number_in_check, rules::specs::Refusal::number_of))]
pub fn verdict(ok: bool) -> Result<(), Refusal>
    ensures { number_in_check result ≡ verdict ok }
{
    if ok {
        Ok(())
    } else {
        Err(Refusal::InvalidTime)
    }
}

#[tactic(auto, unfolding(rules::specs::Record::ok_field))]
pub fn month(record: Record) -> bool
    ensures { (zone : List ℕ) → result ≡ ok_field month «record» zone }
{
    (1..=12).contains(&record.month)
}

#[tactic(auto, unfolding(rules::specs::Record::ok_field))]
pub fn day(record: Record) -> bool
    ensures { (zone : List ℕ) → result ≡ ok_field day «record» zone }
{
    (1..=31).contains(&record.day)
}

#[tactic(auto, unfolding(rules::specs::Record::ok_field))]
pub fn hour(record: Record) -> bool
    ensures { (zone : List ℕ) → result ≡ ok_field hour «record» zone }
{
    record.hour <= 23
}

#[tactic(auto, unfolding(rules::specs::Record::ok_field))]
pub fn minute(record: Record) -> bool
    ensures { (zone : List ℕ) → result ≡ ok_field minute «record» zone }
{
    record.minute <= 59
}

#[tactic(auto, unfolding(rules::specs::Record::ok_field))]
pub fn second(record: Record) -> bool
    ensures { (zone : List ℕ) → result ≡ ok_field second «record» zone }
{
    record.second <= 60
}

#[tactic(auto, unfolding(rules::specs::Record::ok_field))]
pub fn nanoseconds(record: Record) -> bool
    ensures { (zone : List ℕ) → result ≡ ok_field nanoseconds «record» zone }
{
    record.nanoseconds <= 999_999_999
}

#[tactic(auto, unfolding(rules::specs::Record::ok_field))]
pub fn day_of_week(record: Record) -> bool
    ensures { (zone : List ℕ) → result ≡ ok_field weekday «record» zone }
{
    record.day_of_week <= 6
}

fn last_day_of(year: i32) -> u16
    ensures { result ≡ last_day_of year }
{
    week::days_in(year as i64)
}

// The original takes day 366 in any year.
#[tactic(auto, using(rules::proofs::YearLaws::days_from), unfolding(rules::specs::Record::ok_field))]
pub fn day_of_year(record: Record) -> bool
    ensures { (zone : List ℕ) → result ≡ ok_field day_of_year «record» zone }
{
    let day = record.day_of_year;
    1 <= day && (day <= 365 || day <= last_day_of(record.year))
}

// The original takes every byte below 128.
fn zone_byte(b: u8) -> bool
    ensures { result ≡ zone_byte_ok b }
{
    (32..=126).contains(&b)
}

pub fn time_zone(zone: &[u8]) -> bool
    ensures { result ≡ zone_ok zone.now }
{
    zone.iter().all(|&b| zone_byte(b))
}

#[tactic(auto, unfolding(rules::specs::Record::all_ok))]
pub fn date(record: Record) -> bool
    ensures { (zone : List ℕ) → result ≡ all_ok (month ∷ day ∷ []) «record» zone }
{
    month(record) && day(record)
}

#[tactic(auto, unfolding(rules::specs::Record::all_ok))]
pub fn clock(record: Record) -> bool
    ensures { (zone : List ℕ) → result ≡ all_ok (hour ∷ minute ∷ second ∷ []) «record» zone }
{
    hour(record) && minute(record) && second(record)
}

#[tactic(auto, unfolding(rules::specs::Record::all_ok))]
pub fn week(record: Record) -> bool
    ensures { (zone : List ℕ) → result ≡ all_ok (weekday ∷ day_of_year ∷ []) «record» zone }
{
    day_of_week(record) && day_of_year(record)
}

#[tactic(auto, unfolding(rules::specs::Record::all_ok, rules::specs::Writing::combination_fields))]
pub fn date_time(record: Record) -> bool
    ensures { (zone : List ℕ) → result ≡ all_ok (combination_fields CombinationDateTime) «record» zone }
{
    day_of_week(record) && date(record) && clock(record)
}
