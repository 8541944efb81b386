// Ports what core::fmt and the integers' own methods do for mod.rs: numbers as text, magnitudes, floor quotients.
#![tactic(auto)]

mod pairs;

ghost use Rattle.std.specs.Prelude.{◌≡◌, ℕ, ℤ, ◌+◌, ◌-◌, ◌*◌, ◌/◌, ◌%◌, ◌^◌, ◌<◌, ◌≤◌, [], ◌∷◌, ◌++◌, length, take, drop, replicate, pos, unsigned_abs};
ghost use Rattle.std.specs.Int.Signed.{mag};
ghost use Rattle.rules.specs.Decimal.{digit_count, places, two, decimal_text, spaces, filled, floor_div, floor_mod};

use pairs::pair;

// n of n, and of -(n + 1).
pub fn magnitude(x: i64) -> u64
    ensures { result ≡ mag x }
{
    if x < 0 { (-1 - x) as u64 } else { x as u64 }
}

pub fn unsigned_abs(x: i32) -> u32
    ensures { result ≡ unsigned_abs x }
{
    x.unsigned_abs()
}

pub fn div_euclid_100(y: i32) -> i32
    ensures { result ≡ floor_div y 100 }
{
    y.div_euclid(100)
}

// An integer type whose numbers an i64 holds, and the number that a value of it is.
pub trait Integer: Into<i64> {
    ghost number: { Self → ℤ };

    ghost converted: { (x : Self) (z : ℤ) → Self.converts x z → z ≡ number x };
}

impl Integer for u8 {
    ghost number = { λ n. pos n };

    ghost converted = { λ _ _ h. h };
}

impl Integer for u16 {
    ghost number = { λ n. pos n };

    ghost converted = { λ _ _ h. h };
}

impl Integer for i32 {
    ghost number = { λ z. z };

    ghost converted = { λ _ _ h. h };
}

impl Integer for i64 {
    ghost number = { λ z. z };

    ghost converted = { λ _ _ h. h };
}

// A year: a record's is an i32, an ISO year, which is one beyond those at each end, an i64. Each is divided in its own type.
pub trait Year {
    ghost number: { Self → ℤ };

    fn rem_euclid_100(self) -> u8
        ensures { result ≡ floor_mod (number self) 100 };
}

impl Year for i32 {
    ghost number = { λ y. y };

    fn rem_euclid_100(self) -> u8 {
        i32::rem_euclid(self, 100) as u8
    }
}

impl Year for i64 {
    ghost number = { λ y. y };

    fn rem_euclid_100(self) -> u8 {
        i64::rem_euclid(self, 100) as u8
    }
}

pub fn tens(v: u8) -> u8
    requires { v < 100 }
    ensures { result ≡ 48 + v / 10 }
{
    48 + v / 10
}

pub fn ones(v: u8) -> u8
    ensures { result ≡ 48 + v % 10 }
{
    48 + v % 10
}

// The two digits of a number below 100.
#[derive(Clone, Copy)]
pub struct TwoDigits(pub u8, pub u8);

pub fn two_digits(v: u8) -> TwoDigits
    requires { v < 100 }
    ensures { result.0 ∷ result.1 ∷ [] ≡ two v }
{
    TwoDigits(tens(v), ones(v))
}

// The same with a space for no tens.
pub fn spaced_digits(v: u8) -> TwoDigits
    requires { v < 100 }
    ensures { result.0 ∷ result.1 ∷ [] ≡ filled spaces 2 (pos v) }
{
    if v < 10 {
        TwoDigits(b' ', b'0' + v)
    } else {
        two_digits(v)
    }
}

#[tactic(auto, using(crate::proofs::CountLaws::power_fits))]
pub fn power(k: usize) -> u32
    requires { k ≤ 9 }
    ensures { result ≡ 10 ^ k }
{
    10u32.pow(k as u32)
}

#[tactic(auto, using(crate::proofs::CountLaws::zero_counted, crate::proofs::CountLaws::counted))]
pub fn digit_count(v: u64) -> usize
    ensures { result ≡ digit_count v }
{
    if v == 0 { 1 } else { v.ilog10() as usize + 1 }
}

// The last `count` digits of v at `at`, with zeros in front where v has fewer.
// From the last pair to the first, by hand: a chain of reversed steps of two is no plainer, and what is left of v goes along.
pub fn write_places(out: &mut [u8], at: usize, count: usize, v: u64)
    requires { at + count ≤ length out.old }
    ensures { out.new ≡ take at out.old ++ (places count v ++ drop (at + count) out.old) }
{
    let mut n = v;
    let mut left = count;
    while left >= 2 {
        let word = pair((n % 100) as u8);
        out[at + left - 1] = (word / 256) as u8;
        out[at + left - 2] = (word % 256) as u8;
        left -= 2;
        n = n / 100;
    }
    if left == 0 {
        return;
    }
    out[at] = 48 + (n % 10) as u8;
}

// A form that 01 names (docs/DECISIONS.md).
#[derive(Clone, Copy)]
pub struct Decimal {
    pub bytes: [u8; 20],
    pub count: usize,
}

// The decimal text of v, and zero bytes after it.
pub fn decimal_text(v: i64) -> Decimal
    ensures text { result.bytes ≡ decimal_text v ++ replicate (20 - result.count) 0 }
    ensures count { result.count ≡ length (decimal_text v) }
{
    let size = v.unsigned_abs();
    let n = digit_count(size);
    let mut bytes = [0u8; 20];
    let mut sign = 0;
    if v < 0 {
        bytes[0] = b'-';
        sign = 1;
    }
    write_places(&mut bytes, sign, n, size);
    Decimal {
        bytes,
        count: sign + n,
    }
}
