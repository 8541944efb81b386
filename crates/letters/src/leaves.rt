// The writers of plain numbers: the check, then digits of a fixed form. `ok` and the number are no Option: `valued` takes both, refused or not.
// Each has its check at its head: with the writer as a closure the proof can't cite what the closure wrote unless it states it, and that is longer.
#![tactic(auto)]

ghost use Rattle.std.specs.Prelude.{◌≡◌, true, false, ◌≤◌, ◌<◌, pos};
ghost use Rattle.rules.specs.Writing.{year_width};
ghost use Rattle.text.specs.Room.{Room};
ghost use Rattle.letters.specs.Printed.{valued, Printed};

use numbers::spaced_digits;
use text::refused_at;

pub fn one_or(out: &mut [u8], at: usize, room: usize, ok: bool, v: u8) -> usize
    requires { Room out.old room × (ok ≡ true → v < 10) }
    ensures { Printed room (valued ok (pos v) 1 false) out.old at out.new result }
{
    if let Err(refusal) = fields::verdict(ok) {
        return refused_at(at, refusal);
    }
    text::put_byte(out, at, room, 48 + v)
}

pub fn two_or(out: &mut [u8], at: usize, room: usize, ok: bool, v: u8) -> usize
    requires { Room out.old room × (ok ≡ true → v < 100) }
    ensures { Printed room (valued ok (pos v) 2 false) out.old at out.new result }
{
    if let Err(refusal) = fields::verdict(ok) {
        return refused_at(at, refusal);
    }
    text::put_two(out, at, room, v)
}

pub fn three_or(out: &mut [u8], at: usize, room: usize, ok: bool, v: u16) -> usize
    requires { Room out.old room × (ok ≡ true → v < 1000) }
    ensures { Printed room (valued ok (pos v) 3 false) out.old at out.new result }
{
    if let Err(refusal) = fields::verdict(ok) {
        return refused_at(at, refusal);
    }
    text::put_places(out, at, room, 3, v as u64)
}

// Two places, with a space for no tens.
pub fn spaced_or(out: &mut [u8], at: usize, room: usize, ok: bool, v: u8) -> usize
    requires { Room out.old room × (ok ≡ true → v < 100) }
    ensures { Printed room (valued ok (pos v) 2 true) out.old at out.new result }
{
    if let Err(refusal) = fields::verdict(ok) {
        return refused_at(at, refusal);
    }
    let digits = spaced_digits(v);
    text::put(out, at, room, &[digits.0, digits.1])
}

pub fn year_or(out: &mut [u8], at: usize, room: usize, ok: bool, year: i64) -> usize
    requires { Room out.old room }
    ensures { Printed room (valued ok year (year_width year) false) out.old at out.new result }
{
    if let Err(refusal) = fields::verdict(ok) {
        return refused_at(at, refusal);
    }
    printing::put_year(out, at, room, year)
}

// A number that no check guards.
pub fn decimal(out: &mut [u8], at: usize, room: usize, v: i64, width: usize) -> usize
    requires { Room out.old room × (width ≤ 5) }
    ensures { Printed room (valued true v width false) out.old at out.new result }
{
    printing::put_decimal(out, at, room, v, width, true)
}
