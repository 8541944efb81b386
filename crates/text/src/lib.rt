// Ports write.rs, and the `SizeLimiter` of utils.rs: the leaves of the engine, which count every byte and write those that have a place in `out`.
// A place is the bytes so far (0 to 65,536), or, once refused, how far the text came plus 131,072 times the refusal's number.
#![tactic(auto)]

ghost use Rattle.std.specs.Prelude.{◌≡◌, List, [], ◌∷◌, ◌++◌, ℕ, ◌+◌, ◌-◌, ◌/◌, ◌≤◌, ◌<◌, ltb, leb, length, take, drop, replicate};
ghost use Rattle.rules.specs.Record.{longest_buffer};
ghost use Rattle.rules.specs.Refusal.{number_of, number_in_check, ByEvent};
ghost use Rattle.rules.specs.Event as event;
ghost use Rattle.rules.specs.Decimal.{places};
ghost use Rattle.text.specs.Overlay.{overlay};
ghost use Rattle.text.specs.Ran.{refused_unit, count_at, Ran};
ghost use Rattle.text.specs.Room.{Room};

use rules::{LONGEST_BUFFER, Refusal};

// Whether `count` more bytes end within `len`: no sum is made that could wrap.
#[tactic(auto, using(crate::proofs::PlaceLaws::leb_sub))]
pub fn fits(at: usize, count: usize, len: usize) -> bool
    ensures { result ≡ leb (at + count) len }
{
    if at <= len {
        return count <= len - at;
    }
    false
}

// What a refused place counts for each number of its refusal: twice the longest buffer.
const REFUSED_UNIT: usize = 131072;

// The place of a refusal: its number, and how far the text came.
#[tactic(auto, using(crate::proofs::PlaceLaws::count_refused))]
fn refused(number: usize, reach: usize) -> usize
    requires { (1 ≤ number) × (number ≤ 255) × (reach ≤ longest_buffer) }
    ensures count { count_at result ≡ event.no number reach }
    ensures past { refused_unit ≤ result }
{
    number * REFUSED_UNIT + reach
}

pub fn is_refused(place: usize) -> bool
    ensures { result ≡ ltb longest_buffer place }
{
    LONGEST_BUFFER < place
}

// The refusal of a refused place.
pub fn refusal_at(place: usize) -> Refusal
    requires { ByEvent (place / refused_unit) }
    ensures { number_of result ≡ place / refused_unit }
{
    rules::refusal_of(place / REFUSED_UNIT)
}

// The refusal's number, or 0; ..
#[tactic(auto, using(crate::proofs::PlaceLaws::count_at_lem, crate::proofs::PlaceLaws::count_no), unfolding(rules::specs::Event::number_in))]
pub fn number_at(place: usize) -> usize
    ensures { result ≡ event.number_in (count_at place) }
{
    if LONGEST_BUFFER < place {
        return place / REFUSED_UNIT;
    }
    0
}

// .. and how far the text came.
#[tactic(auto, using(crate::proofs::PlaceLaws::count_at_lem, crate::proofs::PlaceLaws::count_no), unfolding(rules::specs::Event::reach_of))]
pub fn reach_at(place: usize) -> usize
    ensures { result ≡ event.reach_of (count_at place) }
{
    if LONGEST_BUFFER < place {
        return place % REFUSED_UNIT;
    }
    place
}

// The place after `count` bytes, of which those that have a place in the slice were laid there.
pub fn missed(at: usize, count: usize, room: usize) -> usize
    requires { room ≤ longest_buffer }
    ensures { (limit : ℕ) (t l l' : List ℕ) → length t ≡ count → length l ≤ room → l' ≡ overlay at t l → Ran limit room (event.write (event.put t) ∷ []) l at l' result }
{
    if LONGEST_BUFFER < at {
        return at;
    }
    if fits(at, count, room) {
        return at + count;
    }
    refused(4, room)
}

// The place after a check, whose verdict is 0 or the refusal's number.
pub fn judged(at: usize, verdict: usize) -> usize
    requires { verdict ≤ 255 }
    ensures { (limit room : ℕ) (l : List ℕ) → Ran limit room (event.judged verdict ∷ []) l at l result }
{
    if verdict == 0 {
        return at;
    }
    if LONGEST_BUFFER < at {
        return at;
    }
    refused(verdict, at)
}

// The place after a check that refused.
#[tactic(auto, using(crate::proofs::JudgedLaws::refusal_small))]
pub fn refused_at(at: usize, refusal: Refusal) -> usize
    ensures { (limit room : ℕ) (l : List ℕ) → Ran limit room (event.judged (number_of refusal) ∷ []) l at l result }
{
    judged(at, u32::from(refusal) as usize)
}

// The place after a check.
pub fn after_check(at: usize, verdict: Result<(), Refusal>) -> usize
    ensures { (limit room : ℕ) (l : List ℕ) → Ran limit room (event.judged (number_in_check verdict) ∷ []) l at l result }
{
    if let Err(refusal) = verdict {
        return refused_at(at, refusal);
    }
    at
}

// The number whose last `left` places are the first of the last `count` places of v.
fn front_places(v: u64, count: usize, left: usize) -> u64
    requires { left ≤ count }
    ensures { places left result ≡ take left (places count v) }
{
    let mut n = v;
    for _turn in left..count {
        n = n / 10;
    }
    n
}

// ## Sources

// Bytes that can be laid down whole, or the front of them.
pub trait Source: Copy {
    ghost bytes: { Self → List ℕ };

    fn count(self) -> usize
        ensures { result ≡ length (bytes self) };

    fn front(self, count: usize) -> Self
        requires { count ≤ length (bytes self) }
        ensures { bytes result ≡ take count (bytes self) };

    fn lay(self, out: &mut [u8], at: usize)
        requires { at + length (bytes self) ≤ length out.old }
        ensures { out.new ≡ overlay at (bytes self) out.old };
}

// A slice. Its bytes are copied one by one: for `copy_from_slice` the library would need `memmove`.
#[derive(Clone, Copy)]
pub struct Bytes<'a>(pub &'a [u8]);

impl<'a> Source for Bytes<'a> {
    ghost bytes = { λ s. s.0.now };

    fn count(self) -> usize {
        self.0.len()
    }

    fn front(self, count: usize) -> Bytes<'a> {
        Bytes(&self.0[..count])
    }

    fn lay(self, out: &mut [u8], at: usize) {
        for i in 0..self.0.len() {
            out[at + i] = self.0[i];
        }
    }
}

// One byte, so many times.
#[derive(Clone, Copy)]
pub struct Run {
    pub byte: u8,
    pub count: usize,
}

impl Source for Run {
    ghost bytes = { λ s. replicate s.count s.byte };

    fn count(self) -> usize {
        self.count
    }

    fn front(self, count: usize) -> Run {
        Run {
            byte: self.byte,
            count,
        }
    }

    fn lay(self, out: &mut [u8], at: usize) {
        out[at..at + self.count].fill(self.byte)
    }
}

// The last `count` decimal digits of v, with zeros in front where v has fewer.
#[derive(Clone, Copy)]
pub struct Places {
    pub count: usize,
    pub v: u64,
}

impl Source for Places {
    ghost bytes = { λ s. places s.count s.v };

    #[tactic(auto, using(rules::proofs::DecimalLaws::length_places))]
    fn count(self) -> usize {
        self.count
    }

    #[tactic(auto, using(rules::proofs::DecimalLaws::length_places))]
    fn front(self, count: usize) -> Places {
        Places {
            count,
            v: front_places(self.v, self.count, count),
        }
    }

    #[tactic(auto, using(rules::proofs::DecimalLaws::length_places))]
    fn lay(self, out: &mut [u8], at: usize) {
        numbers::write_places(out, at, self.count, self.v)
    }
}

// ## Writes

// What doesn't fit: what does is written by a call of itself, so that a compiler keeps this out of line and the way of a write that fits
// stays short. A run goes this way where it fits too: hardly a plain directive has one.
pub fn put_short<S: Source>(out: &mut [u8], at: usize, room: usize, source: S) -> usize
    requires { Room out.old room }
    ensures { (limit : ℕ) → Ran limit room (event.write (event.put (S.bytes source)) ∷ []) out.old at out.new result }
{
    let count = source.count();
    if fits(at, count, out.len()) {
        source.lay(out, at);
        return at + count;
    }
    if at < out.len() {
        let left = out.len() - at;
        let end = put_short(out, at, room, source.front(left));
        return missed(at, count, room);
    }
    missed(at, count, room)
}

pub fn put_source<S: Source>(out: &mut [u8], at: usize, room: usize, source: S) -> usize
    requires { Room out.old room }
    ensures { (limit : ℕ) → Ran limit room (event.write (event.put (S.bytes source)) ∷ []) out.old at out.new result }
{
    let count = source.count();
    if fits(at, count, out.len()) {
        source.lay(out, at);
        return at + count;
    }
    put_short(out, at, room, source)
}

pub fn put(out: &mut [u8], at: usize, room: usize, src: &[u8]) -> usize
    requires { Room out.old room }
    ensures { (limit : ℕ) → Ran limit room (event.write (event.put src.now) ∷ []) out.old at out.new result }
{
    put_source(out, at, room, Bytes(src))
}

// The bytes of `src` from `from` up to `end`.
pub fn put_part(
    out: &mut [u8],
    at: usize,
    room: usize,
    src: &[u8],
    from: usize,
    end: usize,
) -> usize
    requires { Room out.old room × (from ≤ end) × (end ≤ length src.now) }
    ensures { (limit : ℕ) → Ran limit room (event.write (event.put (take (end - from) (drop from src.now))) ∷ []) out.old at out.new result }
{
    put(out, at, room, &src[from..end])
}

// A pad, tested whole against the limit, then against the room.
pub fn pad(out: &mut [u8], at: usize, room: usize, limit: usize, byte: u8, count: usize) -> usize
    requires { Room out.old room }
    ensures { Ran limit room (event.write (event.pad byte count) ∷ []) out.old at out.new result }
{
    if LONGEST_BUFFER < at {
        return at;
    }
    if count == 0 || fits(at, count, limit) {
        return put_short(out, at, room, Run { byte, count });
    }
    refused(3, at)
}

// The pad of no bytes: one test where it ends within the slice, and no call of `pad`.
pub fn pad_none(out: &mut [u8], at: usize, room: usize, limit: usize) -> usize
    requires { Room out.old room }
    ensures { (byte : ℕ) → Ran limit room (event.write (event.pad byte 0) ∷ []) out.old at out.new result }
{
    if at <= out.len() {
        return at;
    }
    pad(out, at, room, limit, b' ', 0)
}

// This and `put_two` store by hand: by `put` a stamp of ten directives takes 1.1 of the time.
pub fn put_byte(out: &mut [u8], at: usize, room: usize, byte: u8) -> usize
    requires { Room out.old room }
    ensures { (limit : ℕ) → Ran limit room (event.write (event.put (byte ∷ [])) ∷ []) out.old at out.new result }
{
    if at < out.len() {
        out[at] = byte;
        return at + 1;
    }
    missed(at, 1, room)
}

// Two decimal digits.
pub fn put_two(out: &mut [u8], at: usize, room: usize, v: u8) -> usize
    requires { Room out.old room × (v < 100) }
    ensures { (limit : ℕ) → Ran limit room (event.write (event.put (places 2 v)) ∷ []) out.old at out.new result }
{
    if fits(at, 2, out.len()) {
        out[at] = numbers::tens(v);
        out[at + 1] = numbers::ones(v);
        return at + 2;
    }
    let v = v as u64;
    put_short(out, at, room, Places { count: 2, v })
}

// The last `count` decimal digits of v, with zeros in front where v has fewer.
pub fn put_places(out: &mut [u8], at: usize, room: usize, count: usize, v: u64) -> usize
    requires { Room out.old room }
    ensures { (limit : ℕ) → Ran limit room (event.write (event.put (places count v)) ∷ []) out.old at out.new result }
{
    put_source(out, at, room, Places { count, v })
}

// The first `count` bytes of `src`, over those of `out`.
pub fn copy_front(out: &mut [u8], src: &[u8], count: usize)
    requires { (count ≤ length out.old) × (count ≤ length src.now) }
    ensures { out.new ≡ take count src.now ++ drop count out.old }
{
    Bytes(&src[..count]).lay(out, 0)
}
