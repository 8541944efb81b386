// The sections of a stored form (02, request 6): whether counts and bytes agree, and whether directives and steps are taken.
#![tactic(auto)]

ghost use Rattle.std.specs.Prelude.{◌≡◌, ◌+◌, ◌*◌, ◌^◌, ◌≤◌, ◌<◌, length, drop};
ghost use Rattle.rules.specs.Stored.{entries_taken, steps_taken};
ghost use Rattle.sections.specs.Counted.{Counted};

use codes::entry::{entry_taken, two_at};

// How many literal bytes and how many directives.
#[derive(Clone, Copy)]
pub struct Counts {
    pub literals: usize,
    pub directives: usize,
}

impl Counts {
    // Where the directive with this index starts.
    pub fn entry_at(self, index: usize) -> usize
        requires { 4 + self.literals + index * 8 < 2 ^ 64 }
        ensures { result ≡ 4 + self.literals + index * 8 }
    {
        4 + self.literals + index * 8
    }

    // Where the steps start.
    pub fn steps_at(self) -> usize
        requires { 6 + self.literals + self.directives * 8 < 2 ^ 64 }
        ensures { result ≡ 6 + self.literals + self.directives * 8 }
    {
        6 + self.literals + self.directives * 8
    }
}

// The counts, if they and the bytes agree.
pub fn counts_of(s: &[u8]) -> Option<Counts>
    ensures { Counted s.now result }
{
    let left = s.len().checked_sub(6)?;
    let literals = two_at(s, 0);
    let left = left.checked_sub(literals)?;
    let directives = two_at(s, 2 + literals);
    let left = left.checked_sub(directives * 8)?;
    let steps = two_at(s, 4 + literals + directives * 8);
    if left != steps * 3 {
        return None;
    }
    Some(Counts {
        literals,
        directives,
    })
}

// `count` directives from `at` on, used by a step or not. By positions, as below: `entry_taken` and `two_at` go by those of the whole form.
pub fn entries_taken(s: &[u8], at: usize, count: usize) -> bool
    requires { at + count * 8 ≤ length s.now }
    ensures { result ≡ entries_taken count (drop at s.now) }
{
    for index in 0..count {
        if !entry_taken(s, at + index * 8) {
            return false;
        }
    }
    true
}

// `count` steps from `at` on, over so many directives and literal bytes.
pub fn steps_taken(s: &[u8], at: usize, count: usize, directives: usize, literals: usize) -> bool
    requires { at + count * 3 ≤ length s.now }
    ensures { result ≡ steps_taken count (drop at s.now) directives literals }
{
    let mut left = literals;
    for index in 0..count {
        let i = at + index * 3;
        let n = two_at(s, i + 1);
        match s[i] {
            0 if n <= left => left -= n,
            1 if n < directives => {}
            _ => return false,
        }
    }
    true
}
