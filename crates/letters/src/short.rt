// The commonest numbers with the left flag alone, `%-d` and its like: a quick way to what the parser and `directive` do.
ghost use Rattle.std.specs.Bool.{then_some};
ghost use Rattle.std.specs.Prelude.{◌≡◌, [], ◌∷◌, ℕ, ◌<◌, pos, Some};
ghost use Rattle.rules.specs.Decimal.{decimal_text};
ghost use Rattle.rules.specs.Event as event;
ghost use Rattle.text.specs.Ran.{Ran};
ghost use Rattle.text.specs.Room.{Room};
ghost use Rattle.letters.specs.Short.{Short};

use rules::Record;
use values::hour12;

// A number whose check comes to no refusal.
#[tactic(auto, unfolding(rules::specs::Refusal::number_in_check, rules::specs::Refusal::number_of, rules::specs::Writing::verdict))]
fn if_ok(ok: bool, number: u8) -> Option<u8>
    ensures { result ≡ then_some ok number }
{
    fields::verdict(ok).is_ok().then_some(number)
}

// The number of the letter after `-`, if its field is in range.
pub fn short_of(b: u8, record: Record) -> Option<u8>
    ensures { (v : ℕ) → result ≡ Some v → Short «record» b v × (v < 100) }
{
    match b {
        b'H' | b'k' => if_ok(fields::hour(record), record.hour),
        b'I' | b'l' => if_ok(fields::hour(record), hour12(record.hour)),
        b'M' => if_ok(fields::minute(record), record.minute),
        b'S' => if_ok(fields::second(record), record.second),
        b'd' => if_ok(fields::day(record), record.day),
        b'e' => if_ok(fields::day(record), record.day),
        b'm' => if_ok(fields::month(record), record.month),
        _ => None,
    }
}

// One or two digits.
pub fn put_short(out: &mut [u8], at: usize, room: usize, v: u8) -> usize
    requires { Room out.old room × (v < 100) }
    ensures { (limit : ℕ) → Ran limit room (event.write (event.put (decimal_text (pos v))) ∷ []) out.old at out.new result }
{
    if v < 10 {
        return text::put_byte(out, at, room, 48 + v);
    }
    text::put_two(out, at, room, v)
}
