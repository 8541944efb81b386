// Ports `parse_spec` of mod.rs; with it the end of a run of literal bytes, and what makes a format no valid one.
#![tactic(auto)]

ghost use Rattle.std.specs.Prelude.{◌≡◌, true, ◌+◌, ◌<◌, min, length, drop, get_or};
ghost use Rattle.rules.specs.declared.Reading.TheVariants.{InFlags, InWidth, AtModifier, InColons};
ghost use Rattle.rules.specs.declared.Turn.{Turn};
ghost use Rattle.rules.specs.Reading.{outset, on_flag, is_digit, width_with, too_wide, on_letter};
ghost use Rattle.rules.specs.Refusal.{number_in_check};
ghost use Rattle.rules.specs.Format.{fault, items, parse_from};
ghost use Rattle.reading.specs.Stages.{flag_turn, entered, colon_entry, turned};
ghost use Rattle.reading.specs.Literals.{literal_end};

use rules::{Flag, Flags, Modifier, Offset, Options, Padding, Parsed, Piece, Refusal, Spec};
use table::{is_possible, skips, spec_of};

fn outset() -> Options
    ensures { result ≡ outset }
{
    Options {
        padding: Padding::Left,
        flags: Flags::new(),
    }
}

// What a byte after the percent sign makes of the options, if it is a flag.
#[tactic(auto, unfolding(rules::specs::Reading::on_flag))]
fn flag_step(options: Options, b: u8) -> Option<Options>
    ensures { (other : Turn) → flag_turn result other ≡ on_flag options b other }
{
    let padding = options.padding;
    let flags = options.flags;
    match b {
        b'-' => Some(Options {
            padding: Padding::Left,
            flags: flags.set(Flag::LeftPadding),
        }),
        b'_' => Some(Options {
            padding: Padding::Spaces,
            flags,
        }),
        b'0' => Some(Options {
            padding: Padding::Zeros,
            flags,
        }),
        b'^' => Some(Options {
            padding,
            flags: flags.set(Flag::UpperCase),
        }),
        b'#' => Some(Options {
            padding,
            flags: flags.set(Flag::ChangeCase),
        }),
        _ => None,
    }
}

// The width with one more digit. "Above 2,147,483,647, however long": 2,147,483,648 stands for every such width.
#[tactic(auto, using(rules::proofs::RecordLaws::ends))]
fn width_with(width: usize, b: u8) -> usize
    requires { is_digit b ≡ true }
    ensures { result ≡ width_with width b }
{
    (width.min(2147483648) * 10 + (b - b'0') as usize).min(2147483648)
}

fn too_wide(width: usize) -> bool
    ensures { result ≡ too_wide width }
{
    width > 2147483647
}

// The directive of an entry of the table, or an echo of all that was read.
fn enter(
    entry: Option<Spec>,
    options: Options,
    width: Option<usize>,
    skipped: bool,
    next: usize,
) -> Parsed
    ensures { result ≡ entered options width skipped entry next }
{
    let Some(spec) = entry else {
        return Parsed::Echo(next);
    };
    let padding = options.padding;
    let flags = options.flags;
    Parsed::Directive(
        Piece {
            width,
            padding,
            flags,
            spec,
            skipped,
        },
        next,
    )
}

// After an `E` or `O`, which is skipped before a letter of its table, and else ends the directive as an echo. Options and width are no struct, here and
// below: the states of `parse_from` have them apart.
fn parse_modified(
    format: &[u8],
    options: Options,
    width: Option<usize>,
    modifier: Modifier,
    at: usize,
) -> Parsed
    ensures { result ≡ parse_from (AtModifier options width modifier) at (drop at format.now) }
{
    if at < format.len() {
        let b = format[at];
        if skips(modifier, b) {
            return enter(spec_of(b), options, width, true, at + 1);
        }
    }
    Parsed::Echo(at)
}

#[tactic(auto, unfolding(crate::specs::Stages::colon_entry))]
fn colon_entry(colons: usize) -> Option<Spec>
    ensures { result ≡ colon_entry colons }
{
    match colons {
        1 => Some(Spec::Offset(Offset::TimeZoneOffsetHourMinuteColon)),
        2 => Some(Spec::Offset(Offset::TimeZoneOffsetHourMinuteSecondColon)),
        3 => Some(Spec::Offset(Offset::TimeZoneOffsetColonMinimal)),
        _ => None,
    }
}

// After the first colon.
fn parse_colons(format: &[u8], options: Options, width: Option<usize>, start: usize) -> Parsed
    ensures { result ≡ parse_from (InColons options width 1) start (drop start format.now) }
{
    // Four colons stand for more.
    let mut colons: usize = 1;
    for at in start..format.len() {
        let b = format[at];
        if b == b':' {
            colons = (colons + 1).min(4);
        } else if b == b'z' {
            return enter(colon_entry(colons), options, width, false, at + 1);
        } else {
            return Parsed::Echo(at);
        }
    }
    Parsed::Echo(start.max(format.len()))
}

// The byte after the flags and the width.
#[tactic(auto, using(crate::proofs::Laws::letter_high))]
fn parse_letter(format: &[u8], options: Options, width: Option<usize>, at: usize) -> Parsed
    requires { at < length format.now }
    ensures { result ≡ turned format.now at (on_letter options width (get_or format.now at 0)) }
{
    let b = format[at];
    match b {
        b':' => parse_colons(format, options, width, at + 1),
        b'E' => parse_modified(format, options, width, Modifier::E, at + 1),
        b'O' => parse_modified(format, options, width, Modifier::O, at + 1),
        _ => {
            if b >= 128 {
                Parsed::Echo(at)
            } else if is_possible(b) {
                enter(spec_of(b), options, width, false, at + 1)
            } else {
                Parsed::Echo(at + 1)
            }
        }
    }
}

// After the first digit.
fn parse_width(format: &[u8], options: Options, first: usize, start: usize) -> Parsed
    ensures { result ≡ parse_from (InWidth options first) start (drop start format.now) }
{
    let mut width = first;
    for at in start..format.len() {
        let b = format[at];
        if b.is_ascii_digit() {
            width = width_with(width, b);
        } else if too_wide(width) {
            return Parsed::Echo(at);
        } else {
            return parse_letter(format, options, Some(width), at);
        }
    }
    if too_wide(width) {
        Parsed::Echo(start.max(format.len()))
    } else {
        Parsed::Cut
    }
}

// What stands at a percent sign, whose text goes on at `start`: flags first.
pub fn parse_spec(format: &[u8], start: usize) -> Parsed
    ensures { result ≡ parse_from (InFlags outset) start (drop start format.now) }
{
    let mut options = outset();
    for at in start..format.len() {
        let b = format[at];
        if let Some(more) = flag_step(options, b) {
            options = more;
        } else if b.is_ascii_digit() {
            return parse_width(format, options, width_with(0, b), at + 1);
        } else {
            return parse_letter(format, options, None, at);
        }
    }
    Parsed::Cut
}

// The first percent sign at or after `from`, or the format's end. No `position` of a slice: `from` may lie behind the end.
pub fn literal_end(format: &[u8], from: usize) -> usize
    ensures { result ≡ literal_end format.now from }
{
    for at in from..format.len() {
        if format[at] == b'%' {
            return at;
        }
    }
    from.max(format.len())
}

// What makes a format no valid one: it ends inside a directive.
pub fn fault_of(format: &[u8]) -> Result<(), Refusal>
    ensures { number_in_check result ≡ fault (items format.now) }
{
    let mut at = 0;
    // A `while`: each turn goes on where what stands at `at` ends.
    while at < format.len() {
        if format[at] == b'%' {
            let parsed = parse_spec(format, at + 1);
            match parsed {
                Parsed::Directive(_, next) => at = next,
                Parsed::Echo(next) => at = next,
                Parsed::Cut => return Err(Refusal::InvalidFormatString),
            }
        } else {
            at = literal_end(format, at);
        }
    }
    Ok(())
}
