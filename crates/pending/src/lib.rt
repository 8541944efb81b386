// Added: of a format that has not all arrived, where the directive starts that is not yet wholly read.
#![tactic(auto)]

ghost use Rattle.std.specs.Prelude.{◌≡◌, ◌-◌, ◌<◌, length, get_or};
ghost use Rattle.rules.specs.Format.{between, after};
ghost use Rattle.rules.specs.Runs.{pending_of};
ghost use Rattle.rules.proofs.PendingEcho.{waits};
ghost use Rattle.pending.specs.Settled.{Settled};

use reading::{literal_end, parse_spec};
use rules::Parsed;

// Whether an echo that ends with this byte, where the bytes so far end, could still go on. The colon stands right behind the digits.
#[tactic(auto, unfolding(rules::proofs::PendingEcho::waits))]
fn waits(b: u8) -> bool
    ensures { result ≡ waits b }
{
    matches!(b, b'0'..=b':' | b'E' | b'O')
}

// Where what starts at the percent sign at `i` ends, unless more bytes could still be part of it.
fn settled_end(text: &[u8], i: usize) -> Option<usize>
    requires { (i < length text.now) × (get_or text.now i 0 ≡ 37) }
    ensures { Settled text.now i result }
{
    match parse_spec(text, i + 1) {
        Parsed::Directive(_, next) => Some(next),
        Parsed::Echo(end) if end == text.len() && waits(text[end - 1]) => None,
        Parsed::Echo(end) => Some(end),
        Parsed::Cut => None,
    }
}

// Where what is pending after all of the text starts: the text's end if nothing is. The position goes on by what was read: no iterator counts it.
pub fn pending_from(text: &[u8]) -> usize
    ensures { result ≡ length text.now - length (pending_of (after between text.now)) }
{
    let mut i = 0;
    while i < text.len() {
        if text[i] == b'%' {
            let Some(end) = settled_end(text, i) else {
                return i;
            };
            i = end;
        } else {
            i = literal_end(text, i);
        }
    }
    i
}
