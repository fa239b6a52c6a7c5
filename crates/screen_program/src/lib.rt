// What the programs share: a screen is read from standard input, and what `list_screen` makes of it goes to standard output. `run` does so from
// any reader to any writer, and is proved where it is known which bytes they hold. Of the system's streams that isn't known: that standard
// input gives a file's bytes, and standard output takes what is written, is to be read.
#![tactic(auto)]

ghost use Rattle.std.specs.Prelude.{◌≡◌, ◌+◌, ◌≤◌, length, take, replicate, OnOk, IfOk, IfErr, IfSome};
ghost use Rattle.std.specs.Io.KnownBytes.{Appends, Keeps};
ghost use Rattle.std.specs.Process.{exit_status};
ghost use Rattle.screen_fields.specs.Format.{MAX_BYTES};
ghost use Rattle.boxlist_print.specs.Printed.{printed};
ghost use Rattle.screen_program.specs.Input.{IsNotRead};

use boxlist_print::{LIST_BYTES, Listing};
use screen_fields::format;
use std::io::{Cursor, Read, Write};
use std::process::ExitCode;
use std::{fmt, io};

// One byte more than the longest screen: of a longer text no more is read, and it is no screen either.
pub const ROOM: usize = format::MAX_BYTES + 1;

// Zeros to read a screen into.
pub fn room() -> [u8; ROOM]
    ensures zeros { result ≡ replicate (MAX_BYTES + 1) 0 }
    ensures as_long { MAX_BYTES + 1 ≡ length result }
{
    [0; ROOM]
}

// What the input gave, up to its end or as much as there is room for; or a read that failed.
// By hand: `read_to_end` fills a `Vec`, and there is no heap; `read_exact` fails on a shorter text.
pub fn read_input<'a, R: Read>(input: &mut R, text: &'a mut [u8]) -> io::Result<&'a [u8]>
    ensures in_bounds { IfOk result (λ read. length read.now ≤ length text.old) }
    ensures read { IfOk result (λ read. IfSome (R.remaining input.old) (λ all. read.now ≡ take (length text.old) all)) }
{
    let mut n: usize = 0;
    while n < text.len() {
        let more = input.read(&mut text[n..])?;
        if more == 0 {
            break;
        }
        n += more;
    }
    Ok(&text[..n])
}

// How a program ended where it didn't print. A read that failed is no screen, and nothing is printed.
#[derive(Debug, Drop)]
pub enum Failure {
    NotRead(io::Error),
    NotWritten(io::Error),
}

// The system's reason, without the number that std puts behind it. Into 256 bytes and no `String`: there is no heap, and `fmt` is given no
// allocator.
#[derive(Drop)]
struct Reason<'a>(&'a io::Error);

impl fmt::Display for Reason<'_> {
    fn fmt<W: fmt::Write>(&self, f: &mut fmt::Formatter<W>) -> fmt::Result {
        let error = self.0;
        let mut said = Cursor::new([0u8; 256]);
        let _ = write!(said, "{error}");
        let end = said.position() as usize;
        let bytes = said.into_inner();
        let whole = str::from_utf8(bytes.get(..end).unwrap_or(&bytes)).unwrap_or("");
        f.write_str(whole.split(" (os error ").next().unwrap_or(whole))
    }
}

impl fmt::Display for Failure {
    fn fmt<W: fmt::Write>(&self, f: &mut fmt::Formatter<W>) -> fmt::Result {
        match self {
            Failure::NotRead(error) => write!(f, "standard input: {}", Reason(error)),
            Failure::NotWritten(error) => write!(f, "standard output: {}", Reason(error)),
        }
    }
}

impl std::error::Error for Failure {}

// How many bytes, since `list_screen` hands back no part of `out`: at `put_list` of boxlist_print stands why.
fn print_list<W: Write>(listing: Listing, text: &[u8], output: &mut W) -> io::Result<()>
    ensures { OnOk result (Appends (W.contents output.old) (W.contents output.new) (printed listing text.now)) }
{
    let mut out = [0u8; LIST_BYTES];
    let size = boxlist_print::list_screen(listing, text, &mut out);
    output.write_all(&out[..size])
}

// Prints what is printed for the bytes that the input has left.
pub fn run<R: Read, W: Write>(
    listing: Listing,
    input: &mut R,
    output: &mut W,
) -> Result<(), Failure>
    ensures prints { OnOk result (IfSome (R.remaining input.old) (λ text. Appends (W.contents output.old) (W.contents output.new) (printed listing text))) }
    ensures not_read { IfErr result (λ failure. IsNotRead failure → Keeps (W.contents output.old) (W.contents output.new)) }
{
    let mut room = room();
    let text = read_input(input, &mut room).map_err(Failure::NotRead)?;
    print_list(listing, text, output).map_err(Failure::NotWritten)
}

// The line that tells a failure, behind the program's name: one write, so that the lines of programs that share a standard error stay whole. Into
// 512 bytes, as at `Reason`; a line that is longer, by a longer name, goes piece by piece.
fn tell<E: Write>(name: &str, failure: &Failure, errors: &mut E) -> io::Result<()> {
    let mut line = Cursor::new([0u8; 512]);
    if writeln!(line, "{name}: {failure}").is_err() {
        return writeln!(errors, "{name}: {failure}");
    }
    let end = line.position() as usize;
    let bytes = line.into_inner();
    errors.write_all(bytes.get(..end).unwrap_or(&bytes))
}

// The same, with a failure told to `errors`. The status is 0 only where all was printed.
pub fn run_named<R: Read, W: Write, E: Write>(
    name: &str,
    listing: Listing,
    input: &mut R,
    output: &mut W,
    errors: &mut E,
) -> ExitCode
    ensures { exit_status result ≡ 0 → IfSome (R.remaining input.old) (λ text. Appends (W.contents output.old) (W.contents output.new) (printed listing text)) }
{
    match run(listing, input, output) {
        Ok(()) => ExitCode::SUCCESS,
        Err(failure) => {
            let _ = tell(name, &failure, errors);
            ExitCode::FAILURE
        }
    }
}

#[cfg(test)]
mod tests;
