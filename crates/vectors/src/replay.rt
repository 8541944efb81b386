// Replays one line of the list after the other.
ghost use Rattle.std.specs.Prelude.{◌≤◌, length};

use crate::difference::{Difference, compare};
use crate::ground::{GUARD, set};
use lines::read_line;

// The buffer is the ground but for the guard bytes, and has exactly as many bytes as the line says. The four lent buffers are no
// struct: a slice lent from one field of a `&mut` beside the others gets no proof yet.
fn replay_line(
    line: &[u8],
    format: &mut [u8],
    zone: &mut [u8],
    text: &mut [u8],
    ground: &mut [u8],
) -> Result<(), Difference>
    requires { 65664 ≤ length ground.old }
{
    let case = read_line(line, format, zone, text).ok_or(Difference::Unread)?;
    let end = GUARD + case.room;
    let ground = &mut ground[..end + GUARD];
    set(ground);
    let given = strftime::format(
        &format[..case.format],
        &zone[..case.zone],
        case.record,
        &mut ground[GUARD..end],
    );
    let count = say::answer_bytes(case.answer);
    compare(given, case.answer, &text[..count], ground)
}

fn replay_lines(list: &[u8], format: &mut [u8], zone: &mut [u8], text: &mut [u8], ground: &mut [u8])
    requires { 65664 ≤ length ground.old }
{
    let mut answers: u64 = 0;
    let mut differ: u64 = 0;
    for line in list.split_inclusive(|byte| *byte == b'\n') {
        let line = line.strip_suffix(b"\n").unwrap_or(line);
        answers += 1;
        if let Err(difference) = replay_line(line, format, zone, text, ground) {
            say::shown(format_args!("line {answers}: {difference}\n"));
            differ += 1;
        }
    }
    say::shown(format_args!("{answers} answers replayed, {differ} differ\n"));
}

pub fn replay(list: &[u8]) {
    let mut format = [0u8; 4096];
    let mut zone = [0u8; 64];
    let mut text = [0u8; 65536];
    let mut ground = [0u8; 65664];
    replay_lines(list, &mut format, &mut zone, &mut text, &mut ground);
}
