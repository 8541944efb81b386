// Prints paper 01's sizing answers, and what each should be where it is another.
#![tactic(auto)]

use rules::Refusal;

fn say_size(size: Result<usize, Refusal>) {
    match size {
        Ok(bytes) => say::shown(bytes),
        Err(refusal) => {
            let number = u32::from(refusal);
            say::shown(format_args!("refusal {number}"));
        }
    }
}

// Whether the answer is as it should be.
fn is_right(format: &[u8], longest_zone: usize, due: Result<usize, Refusal>) -> bool {
    let given = sizing::size(format, longest_zone);
    say::text(b"`");
    say::text(format);
    say::shown(format_args!("`, zone {longest_zone}: "));
    say_size(given);
    if given == due {
        say::text(b", as it should be\n");
        return true;
    }
    say::text(b", but should be ");
    say_size(due);
    say::text(b"\n");
    false
}

fn main() {
    let sizes: [(&[u8], usize, Result<usize, Refusal>); 15] = [
        (b"", 0, Ok(0)),
        (b"%Y", 0, Ok(11)),
        (b"%s", 0, Ok(20)),
        (b"%65536Y", 0, Ok(65536)),
        (b"%z", 0, Ok(10)),
        (b"%12z", 0, Ok(17)),
        (b"%:::z", 0, Ok(14)),
        (b"%B%-m", 0, Ok(10)),
        (b"%B%-m%-m", 0, Ok(12)),
        (b"%B%B%-m", 0, Ok(19)),
        (b"%10Z", 0, Ok(0)),
        (b"%10Z", 1, Ok(10)),
        (b"%65537Y", 0, Err(Refusal::NoBuffer)),
        (b"%", 0, Err(Refusal::InvalidFormatString)),
        (b"", 65, Err(Refusal::InputTooLong)),
    ];
    let mut right: u64 = 0;
    for (format, longest_zone, due) in sizes {
        if is_right(format, longest_zone, due) {
            right += 1;
        }
    }
    say::shown(format_args!("{right} of 15 sizes are as they should be\n"));
}
