// The names of days and months: flat tables with the places of the names, and their upper twins.
ghost use Rattle.std.specs.Prelude.{◌≡◌, Bool, cond, ℕ, ◌+◌, ◌-◌, ◌≤◌, ◌<◌, length, get_or};
ghost use mathlib.Core.List.{List, [], ◌∷◌, flatten};
ghost use Rattle.rules.specs.Ascii.{ascii};
ghost use Rattle.rules.specs.Event as event;
ghost use Rattle.rules.specs.Name.{day_names, month_names, day_name, month_name, abbreviated, raised, in_case, before12};
ghost use Rattle.text.specs.Ran.{Ran};
ghost use Rattle.text.specs.Room.{Room};
ghost use Rattle.std.proofs.Common.{rules};
ghost use Rattle.names.specs.Laws.{days_counted, months_counted, days_numbered, months_numbered, days_long, months_long};
ghost use Rattle.names.specs.Calendar.{case_by, name_start};

use text::{put, put_part};

const DAYS: [u8; 50] = *b"SundayMondayTuesdayWednesdayThursdayFridaySaturday";

const DAYS_UPPER: [u8; 50] = *b"SUNDAYMONDAYTUESDAYWEDNESDAYTHURSDAYFRIDAYSATURDAY";

const MONTHS: [u8; 74] =
    *b"JanuaryFebruaryMarchAprilMayJuneJulyAugustSeptemberOctoberNovemberDecember";

const MONTHS_UPPER: [u8; 74] =
    *b"JANUARYFEBRUARYMARCHAPRILMAYJUNEJULYAUGUSTSEPTEMBEROCTOBERNOVEMBERDECEMBER";

// Where each name starts in its table, and where the table ends.
const DAY_STARTS: [u8; 8] = [0, 6, 12, 19, 28, 36, 42, 50];

const MONTH_STARTS: [u8; 13] = [0, 7, 15, 20, 25, 28, 32, 36, 42, 51, 58, 66, 74];

// A table of names, those of the numbers `first` to `last`.
pub trait Names<const SIZE: usize> {
    ghost names: { List (List ℕ) };

    ghost first: { ℕ };

    ghost last: { ℕ };

    ghost name: { ℕ → List ℕ };

    // The names one after the other, and the twin, in which each byte is the upper case of the other's: what assert_to_ascii_uppercase asserts (`days_raised`, `months_raised`).
    fn table() -> [u8; SIZE]
        ensures { result ≡ flatten names };

    fn upper_table() -> [u8; SIZE]
        ensures { result ≡ in_case raised (flatten names) };

    // A byte of either table. Read from the table that `table` gives, the first three letters take 1.03 of the instructions of a stamp.
    fn letter(place: usize, upper: bool) -> u8
        requires { place < length (flatten names) }
        ensures { result ≡ get_or (in_case (case_by upper) (flatten names)) place 0 };

    // Where a name starts in its table, and behind the last one where the table ends.
    fn start(number: u8) -> u8
        requires { (first ≤ number) × (number ≤ last + 1) }
        ensures { result ≡ name_start names (number - first) };

    ghost short: { SIZE < 256 };

    ghost few: { last < 255 };

    ghost counted: { last < first + length names };

    ghost numbered: { (n : ℕ) → name n ≡ get_or names (n - first) [] };

    ghost long: { (n : ℕ) → first ≤ n → n ≤ last → 3 ≤ length (name n) };

    final fn length(number: u8) -> usize
        requires { (first ≤ number) × (number ≤ last) }
        ensures { result ≡ length (name number) }
    {
        (Self::start(number + 1) - Self::start(number)) as usize
    }

    // Each branch binds its own table: one that a value chooses is built byte by byte.
    final fn put(out: &mut [u8], at: usize, room: usize, number: u8, upper: bool) -> usize
        requires { Room out.old room × (first ≤ number) × (number ≤ last) }
        ensures { (limit : ℕ) → Ran limit room (event.write (event.put (in_case (case_by upper) (name number))) ∷ []) out.old at out.new result }
    {
        let from = Self::start(number) as usize;
        let end = Self::start(number + 1) as usize;
        if upper {
            let table = Self::upper_table();
            put_part(out, at, room, &table, from, end)
        } else {
            let table = Self::table();
            put_part(out, at, room, &table, from, end)
        }
    }

    // The first three letters.
    final fn three(number: u8, upper: bool) -> [u8; 3]
        requires { (first ≤ number) × (number ≤ last) }
        ensures { result ≡ in_case (case_by upper) (abbreviated (name number)) }
    {
        let from = Self::start(number) as usize;
        [
            Self::letter(from, upper),
            Self::letter(from + 1, upper),
            Self::letter(from + 2, upper),
        ]
    }
}

// Sunday is day 0, January month 1.
pub struct Days;

impl Names<50> for Days {
    ghost names = { day_names };

    ghost first = { 0 };

    ghost last = { 6 };

    ghost name = { day_name };

    ghost short = { Prim.search rules };

    ghost few = { Prim.search rules };

    ghost counted = { days_counted };

    ghost numbered = { days_numbered };

    ghost long = { days_long };

    fn table() -> [u8; 50] {
        DAYS
    }

    fn upper_table() -> [u8; 50] {
        DAYS_UPPER
    }

    fn letter(place: usize, upper: bool) -> u8 {
        if upper {
            DAYS_UPPER[place]
        } else {
            DAYS[place]
        }
    }

    fn start(day: u8) -> u8 {
        DAY_STARTS[day as usize]
    }
}

pub struct Months;

impl Names<74> for Months {
    ghost names = { month_names };

    ghost first = { 1 };

    ghost last = { 12 };

    ghost name = { month_name };

    ghost short = { Prim.search rules };

    ghost few = { Prim.search rules };

    ghost counted = { months_counted };

    ghost numbered = { months_numbered };

    ghost long = { months_long };

    fn table() -> [u8; 74] {
        MONTHS
    }

    fn upper_table() -> [u8; 74] {
        MONTHS_UPPER
    }

    fn letter(place: usize, upper: bool) -> u8 {
        if upper {
            MONTHS_UPPER[place]
        } else {
            MONTHS[place]
        }
    }

    fn start(month: u8) -> u8 {
        MONTH_STARTS[month as usize - 1]
    }
}

// Before noon, or from noon on.
fn meridian(hour: u8, upper: bool) -> [u8; 2]
    ensures { result ≡ before12 hour (cond upper (ascii "AM") (ascii "am")) (cond upper (ascii "PM") (ascii "pm")) }
{
    if hour < 12 {
        if upper { *b"AM" } else { *b"am" }
    } else {
        if upper { *b"PM" } else { *b"pm" }
    }
}

pub fn put_meridian(out: &mut [u8], at: usize, room: usize, hour: u8, upper: bool) -> usize
    requires { Room out.old room }
    ensures { (limit : ℕ) → Ran limit room (event.write (event.put (before12 hour (cond upper (ascii "AM") (ascii "am")) (cond upper (ascii "PM") (ascii "pm")))) ∷ []) out.old at out.new result }
{
    let text = meridian(hour, upper);
    put(out, at, room, &text)
}
