// Replays the stored list of the original's answers, its standard input, and prints each answer that differs.
#![tactic(auto)]

mod difference;
mod ground;
mod replay;

const STDIN_FILENO: i32 = 0;

// The list is to be shorter than what holds it, so that its end was read.
fn replay_input(list: &mut [u8; 1048576]) {
    let count = io::read_full(STDIN_FILENO, list);
    if count == 0 {
        say::text(b"there is no list\n");
        return;
    }
    if count == list.len() {
        say::text(b"the list is too long\n");
        return;
    }
    replay::replay(&list[..count]);
}

fn main() {
    let mut list = [0u8; 1048576];
    replay_input(&mut list);
}
