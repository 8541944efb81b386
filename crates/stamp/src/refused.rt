// Where a format is refused, and why.
ghost use Rattle.std.specs.Prelude.{◌≤◌, length};

use crate::item::{Item, Items};
use rules::{LONGEST_FORMAT, Record, Refusal};
use say::STDERR_FILENO;

fn say_why(refusal: Refusal, format: &[u8])
    requires { length format.now ≤ 4096 }
{
    match refusal {
        Refusal::InvalidTime => say::error(
            b" reads a field that is out of its range, or a zone name with a byte below 32 or above 126",
        ),
        Refusal::InvalidFormatString => say::error(b" is cut off by the end of the format"),
        Refusal::FormattedStringTooLarge => {
            say::error(b" asks for a pad that would pass the size limit of ");
            say::error_number(format.len() as u64 * 524288);
            say::error(b" bytes");
        }
        Refusal::WriteZero => say::error(b" has no room in a buffer of 65536 bytes"),
        _ => say::error(b" is refused"),
    }
}

fn say_place(refusal: Refusal, format: &[u8], item: Item)
    requires { length format.now ≤ 4096 }
{
    item.say_to(STDERR_FILENO);
    say_why(refusal, format);
    say::error(b"\n");
}

fn say_too_long(format: &[u8]) {
    say::error(b"the format has ");
    say::error_number(format.len() as u64);
    say::error(b" bytes, and 4096 are the most\n");
}

// `find` finds the item that the format is refused for.
fn explain_by<'a, F: FnOnce() -> Option<Item<'a>>>(refusal: Refusal, format: &'a [u8], find: F)
    requires { F.IsAlwaysCallable find }
{
    say::refusal_to(STDERR_FILENO, refusal);
    say::error(b": ");
    if format.len() > LONGEST_FORMAT {
        say_too_long(format);
        return;
    }
    match find() {
        Some(item) => say_place(refusal, format, item),
        None => say::error(b"no front of the format is refused\n"),
    }
}

// By the last item of the shortest front of the format that is refused. A front is made of whole items.
pub fn explain(refusal: Refusal, format: &[u8], zone: &[u8], record: Record, buffer: &mut [u8]) {
    explain_by(refusal, format, || {
        Items::of(format).find(|item| strftime::format(item.front(), zone, record, buffer).is_err())
    });
}

// Of a format that is compiled, whatever the record: it ends inside a directive in its last item.
pub fn explain_cut(refusal: Refusal, format: &[u8]) {
    explain_by(refusal, format, || Items::of(format).last());
}
