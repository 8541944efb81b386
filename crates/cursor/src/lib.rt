// Ports `Cursor` of utils.rs. It is passed by value: `advanced` hands out a cursor where the original moves its own.
#![tactic(auto)]

ghost use Rattle.std.specs.Prelude.{◌≡◌, drop};
ghost use Rattle.rules.specs.declared.Reading.TheVariants.{InFlags};
ghost use Rattle.rules.specs.Reading.{outset};
ghost use Rattle.rules.specs.Format.{parse_from};

use reading::parse_spec;
use rules::Parsed;

// What is left behind `n` bytes: nothing where there are fewer.
fn tail<'a>(remaining: &'a [u8], n: usize) -> &'a [u8]
    ensures { result.now ≡ drop n remaining.now }
{
    remaining.get(n..).unwrap_or(&[])
}

// What stands behind a percent sign, by positions that count from there.
fn parse_front(remaining: &[u8]) -> Parsed
    ensures { result ≡ parse_from (InFlags outset) 0 remaining.now }
{
    parse_spec(remaining, 0)
}

// "A `Cursor` contains a slice of a buffer": the data that remains to be read.
#[derive(Clone, Copy)]
struct Cursor<'a> {
    remaining: &'a [u8],
}

impl<'a> Cursor<'a> {
    fn new(remaining: &'a [u8]) -> Self
        ensures { result.remaining ≡ remaining.entry }
    {
        Self { remaining }
    }

    // The original's `read_exact`: the cursor behind `n` bytes.
    fn advanced(self, n: usize) -> Self
        ensures { result.remaining.now ≡ drop n self.entry.remaining.now }
    {
        Self {
            remaining: tail(self.remaining, n),
        }
    }

    // What stands behind a percent sign, the cursor being there.
    fn parsed(self) -> Parsed
        ensures { result ≡ parse_from (InFlags outset) 0 self.entry.remaining.now }
    {
        parse_front(self.remaining)
    }
}

// What a cursor parses behind the first `i` bytes of a format.
fn parsed_after(format: &[u8], i: usize) -> Parsed
    ensures { result ≡ parse_from (InFlags outset) 0 (drop i format.now) }
{
    Cursor::new(format).advanced(i).parsed()
}

// The same by positions in the format.
pub fn parsed_at(format: &[u8], i: usize) -> Parsed
    ensures { result ≡ parse_from (InFlags outset) i (drop i format.now) }
{
    match parsed_after(format, i) {
        Parsed::Directive(piece, next) => Parsed::Directive(piece, i + next),
        Parsed::Echo(next) => Parsed::Echo(i + next),
        Parsed::Cut => Parsed::Cut,
    }
}
