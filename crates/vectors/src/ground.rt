// The ground that a stamp is written on: the buffer, with guard bytes before and behind it.
ghost use Rattle.std.specs.Prelude.{◌+◌, ◌≤◌, ◌<◌, length, IfSome};

pub const GUARD: usize = 64;

// What stands at a place before the formatter is asked.
fn pattern(place: usize) -> u8 {
    (place % 251) as u8
}

pub fn set(ground: &mut [u8]) {
    for (place, byte) in ground.iter_mut().enumerate() {
        *byte = pattern(place);
    }
}

// The first place from `from` on that was changed.
pub fn changed(ground: &[u8], from: usize, end: usize) -> Option<usize>
    requires { end ≤ length ground.now }
    ensures { IfSome result (λ place. (from ≤ place) × (place < end)) }
{
    (from..end).find(|place| ground[*place] != pattern(*place))
}

// The first place at which the ground, from `from` on, has another byte than the text.
pub fn other(text: &[u8], ground: &[u8], from: usize) -> Option<usize>
    requires { from + length text.now ≤ length ground.now }
    ensures { IfSome result (λ place. place < length text.now) }
{
    text.iter()
        .zip(&ground[from..])
        .position(|(due, given)| due != given)
}
