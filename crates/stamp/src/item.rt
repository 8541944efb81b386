// The items of a format, from front to back.
ghost use Rattle.std.specs.Prelude.{◌≤◌, ◌<◌, length};

use cursor::parsed_at;
use rules::Parsed;

// A directive, an echo or a plain byte: where it stands in the format, and whether it is an echo.
#[derive(Clone, Copy)]
pub struct Item<'a> {
    format: &'a [u8],
    start: usize,
    end: usize,
    pub echoed: bool,
    ghost within: { (start < end) × (end ≤ length format.now) },
}

impl<'a> Item<'a> {
    ghost use Rattle.std.specs.Prelude.{◌≡◌, take};
    ghost use Rattle.stamp.specs.Items.{Stands};

    // The item that begins at `at`.
    fn at(format: &'a [u8], at: usize) -> Self
        requires { at < length format.now }
        ensures { Stands format.now at result }
    {
        let (end, echoed) = if format[at] == b'%' {
            match parsed_at(format, at + 1) {
                Parsed::Directive(_, next) => (next, false),
                Parsed::Echo(next) => (next, true),
                Parsed::Cut => (format.len(), false),
            }
        } else {
            (at + 1, false)
        };
        Item {
            format,
            start: at,
            end,
            echoed,
        }
    }

    // The format up to the item's end.
    pub fn front(self) -> &'a [u8]
        ensures { result.now ≡ take self.entry.end self.entry.format.now }
    {
        &self.format[..self.end]
    }

    // The item and where it stands, as a message begins.
    pub fn say_to(self, fd: i32) {
        say::text_to(fd, b"`");
        say::escaped_to(fd, &self.format[self.start..self.end]);
        say::text_to(fd, b"`, from byte ");
        say::number_to(fd, self.start as u64 + 1);
        say::text_to(fd, b" of the format on,");
    }
}

// What is left of a format: the items from `at` on.
#[derive(Drop)]
pub struct Items<'a> {
    format: &'a [u8],
    at: usize,
}

impl<'a> Items<'a> {
    ghost use Rattle.std.specs.Prelude.{◌≡◌};

    pub fn of(format: &'a [u8]) -> Self
        ensures format { result.format ≡ format.entry }
        ensures at { result.at ≡ 0 }
    {
        Items { format, at: 0 }
    }
}

impl<'a> Iterator for Items<'a> {
    ghost use Rattle.std.specs.Prelude.{◌-◌};
    ghost use Rattle.std.specs.Iterator.{at_most};
    ghost use Rattle.stamp.specs.Items.{GivesItem};

    type Item = Item<'a>;

    ghost next_gives = { GivesItem };

    ghost remaining = { λ s. at_most (length s.format.now - s.at) };

    fn next(&mut self) -> Option<Item<'a>> {
        if self.format.len() <= self.at {
            return None;
        }
        let item = Item::at(self.format, self.at);
        self.at = item.end;
        Some(item)
    }
}
