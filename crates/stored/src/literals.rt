// Literal bytes of the stored form, copied to the scratch.
ghost use Rattle.std.specs.Prelude.{◌≡◌, ℕ, ◌+◌, ◌≤◌, ◌<◌, length, take, drop};
ghost use Rattle.text.specs.Overlay.{overlay};
ghost use Rattle.stored.specs.Texts.{Copied};

// Byte by byte: `copy_from_slice` is 2 to 4 percent slower here.
fn lay(out: &mut [u8], at: usize, src: &[u8], from: usize, count: usize)
    requires { (at + count ≤ length out.old) × (from + count ≤ length src.now) }
    ensures { out.new ≡ overlay at (take count (drop from src.now)) out.old }
{
    for k in 0..count {
        out[at + k] = src[from + k];
    }
}

// How many places of the scratch have 16 bytes from there on, if the stored form has as many behind every literal byte.
pub fn blocks_of(end: usize, stored: usize, out: usize) -> usize
    requires { end ≤ stored }
    ensures { (at : ℕ) → at < result → (at + 16 ≤ out) × (end + 16 ≤ stored) }
{
    if 16 <= out && 16 <= stored - end {
        return out - 15;
    }
    0
}

// Whether n bytes ended within the scratch. Where 16 have a place there, as many are copied: one load and one store, and what follows goes over
// those that are too many.
pub fn copy_text(
    out: &mut [u8],
    at: usize,
    src: &[u8],
    from: usize,
    n: usize,
    blocks: usize,
) -> bool
    requires { (at ≤ length out.old) × (from + n ≤ length src.now) × (at < blocks → (at + 16 ≤ length out.old) × (from + 16 ≤ length src.now)) }
    ensures { Copied (take n (drop from src.now)) out.old at out.new result }
{
    if n <= 16 && at < blocks {
        lay(out, at, src, from, 16);
        return true;
    }
    if out.len() - at < n {
        return false;
    }
    lay(out, at, src, from, n);
    true
}
