// How the program is used. The table of directives is stamped too, so each stands beside what it gives.
use crate::instant::show_at;
use crate::sample::{show_sample, stamp};
use crate::stored::show_stored;
use std::num::NonZeroUsize;

pub fn say_version() {
    say::text(b"groatsaddle 0.1.0: the formatter of strftime-ruby in Rattle, proved\n");
}

fn say_line(format: &[u8]) {
    let mut buffer = [0u8; 128];
    if let Ok(bytes) = stamp(format, &mut buffer) {
        say::text(say::front(&buffer, bytes));
    }
}

fn say_use() {
    say::text(
        b"usage: stamp [--runs N] FORMAT [COUNT [OFFSET]]\n       stamp --stored FORMAT\n       stamp --help\n       stamp --version\n",
    );
    say_line(b"Prints %A %F %T.%N, day %j, zone %Z, %:z, as FORMAT says,\n");
    say::text(b"and the bytes that FORMAT needs for any time. Every word but the four above is\n");
    say::text(b"a format, also one that begins with two dashes, as --%d.\n");
}

fn say_counts() {
    say::text(
        b"With COUNT it prints the time COUNT seconds after 1970-01-01 00:00:00 UTC, and with\n",
    );
    say::text(
        b"OFFSET that time OFFSET seconds east of UTC. Both may be below 0. The zone name is UTC\n",
    );
    say::text(b"where OFFSET is 0 or not given, and else empty.\n");
}

fn say_runs() {
    say::text(
        b"With --runs it takes FORMAT in runs of N bytes, 1 to 32, as a bus would bring it, and\n",
    );
    say::text(b"says after each what the buffer holds.\n");
}

fn say_stored() {
    say::text(
        b"With --stored it prints the stored form of FORMAT, in hexadecimal: a line for the literal\n",
    );
    say::text(b"bytes, one for the directives, and one for the steps, each after its count.\n\n");
}

fn say_examples() {
    say::text(b"$ stamp '%A, %-d %B %Y'\n");
    show_sample(b"%A, %-d %B %Y", None);
    say::text(b"$ stamp '%F %T %Z' 1735574709\n");
    show_at(b"%F %T %Z", 1735574709, 0, None);
    say::text(b"$ stamp '%F %T %:z' 1735574709 -18000\n");
    show_at(b"%F %T %:z", 1735574709, -18000, None);
    say::text(b"$ stamp --runs 4 'on %A, %-d %B'\n");
    show_sample(b"on %A, %-d %B", NonZeroUsize::new(4));
    say::text(b"$ stamp --stored '%F %T'\n");
    show_stored(b"%F %T");
    say::text(b"\n");
}

fn say_dates() {
    say_line(b"  year     %%Y %Y  %%C %C  %%y %y  ISO 8601: %%G %G  %%g %g  week %%V %V\n");
    say_line(b"  month    %%m %m  %%B %B  %%b %%h %b\n");
    say_line(b"  day      %%d %d  %%e %e  of the year: %%j %j\n");
    say_line(b"  weekday  %%A %A  %%a %a  from Monday: %%u %u  from Sunday: %%w %w\n");
    say_line(b"  week     from Sunday: %%U %U  from Monday: %%W %W\n");
}

fn say_times() {
    say_line(b"  hour     %%H %H  %%k %k  of twelve: %%I %I  %%l %l  %%p %p  %%P %P\n");
    say_line(b"  minute   %%M %M\n");
    say_line(b"  second   %%S %S  %%L %L  %%N %N  since 1970: %%s %s\n");
    say_line(b"  zone     %%Z %Z  %%z %z  %%:z %:z  %%::z %::z  %%:::z %:::z\n");
}

fn say_others() {
    say_line(b"  whole    %%c %c  %%F %F  %%D %%x %D  %%v %v\n");
    say_line(b"           %%T %%X %T  %%R %R  %%r %r\n");
    say_line(b"  signs    %%%% %%  %%n line end  %%t tab\n");
    say_line(
        b"  flags - _ 0 ^ # and a width: %%-I %-I  %%_4I %_4I  %%04I %04I  %%^a %^a  %%#p %#p\n",
    );
}

fn say_rest() {
    say::text(b"\nWhat is no directive, as %Q, is written as it stands, and a line says so.\n");
    say::text(
        b"A refusal goes to standard error. include/groatsaddle.h has the table of refusals.\n",
    );
}

pub fn say_usage() {
    say_use();
    say_counts();
    say_runs();
    say_stored();
    say_examples();
    say_dates();
    say_times();
    say_others();
    say_rest();
}

// Where the words are not those of the first line of usage.
pub fn say_words() {
    say::error(
        b"stamp takes --runs N, FORMAT, COUNT and OFFSET, or --stored and FORMAT: put quotes around a format that has blanks\n",
    );
    say::error(b"stamp --help says more\n");
}
