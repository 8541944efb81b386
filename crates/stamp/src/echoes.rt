// What a format echoes. A directive that is echoed is a slip, as a rule.
use crate::item::{Item, Items};
use say::STDOUT_FILENO;

// The lines at most; a format may have more than a thousand echoes.
const MOST: usize = 10;

fn say_echo(item: Item) {
    item.say_to(STDOUT_FILENO);
    say::text(b" is no directive: it is written as it stands\n");
}

pub fn say_echoes(format: &[u8]) {
    Items::of(format)
        .filter(|item| item.echoed)
        .take(MOST)
        .for_each(say_echo);
    let more = Items::of(format)
        .filter(|item| item.echoed)
        .skip(MOST)
        .count();
    if more > 0 {
        say::text(b"and ");
        say::number(more as u64);
        say::text(b" more\n");
    }
}
