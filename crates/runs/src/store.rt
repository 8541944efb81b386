// The store: what is pending stands in front.
ghost use Rattle.std.specs.Prelude.{◌≡◌, ◌++◌, ◌+◌, ◌≤◌, length, take, drop};

use text::{Bytes, Source};

// The bytes of a run, behind those that are kept.
pub fn take_in(store: &mut [u8], kept: usize, bytes: &[u8])
    requires { kept + length bytes.now ≤ length store.old }
    ensures { store.new ≡ take kept store.old ++ (bytes.now ++ drop (kept + length bytes.now) store.old) }
{
    Bytes(bytes).lay(store, kept)
}

// The `count` bytes from `from` on, moved to the front.
pub fn move_front(store: &mut [u8], from: usize, count: usize)
    requires { from + count ≤ length store.old }
    ensures { store.new ≡ take count (drop from store.old) ++ drop count store.old }
{
    store.copy_within(from..from + count, 0)
}
