//! The program maskreport: reads its input, of which a report takes at most 65,536 bytes, and prints the report.
ghost use Rattle.std.specs.Prelude.{◌<◌, Some, length, take, IfOk, IfSome, OnOk};
ghost use Rattle.std.specs.Io.{ReadsAtMost};
ghost use Rattle.std.specs.Io.KnownBytes.{Appends, Consumes, IsAtEnd};
ghost use Rattle.report.specs.Program.{Outcome, failure_text, lines_of, text_of};

use crate::numbers::{Numbers, report};
use std::error::Error;
use std::fmt::{InlineText, Write as _};
use std::io::{Read, Write};
use std::{fmt, io};

/// The reason why no report was printed: the input cannot be read, or the output cannot be written.
#[derive(Clone, Copy, PartialEq, Eq, Debug)]
pub enum Failure {
    Input,
    Output,
}

impl fmt::Display for Failure {
    ghost output = { λ e. Some (failure_text e) };

    fn fmt<W: fmt::Write>(&self, f: &mut fmt::Formatter<W>) -> fmt::Result {
        f.write_str(match self {
            Failure::Input => "standard input cannot be read",
            Failure::Output => "standard output cannot be written",
        })
    }
}

impl Error for Failure {}

// Each number is a line.
impl fmt::Display for Numbers {
    ghost output = { λ n. Some (lines_of n) };

    fn fmt<W: fmt::Write>(&self, f: &mut fmt::Formatter<W>) -> fmt::Result {
        writeln!(f, "flags={}", self.flags)?;
        writeln!(f, "zeros={}", self.zeros)?;
        writeln!(f, "edges={}", self.edges)?;
        writeln!(f, "runs={}", self.runs)
    }
}

/// Reads `source` to its end, at most one byte more than a report takes, and prints the report on it to `output`. If it cannot, prints the
/// failure to `errors` and returns it.
pub fn run<R: Read, W: Write, E: Write>(
    source: &mut R,
    output: &mut W,
    errors: &mut E,
) -> Result<(), Failure>
    ensures { Outcome (R.remaining source.old) (W.contents output.old) (W.contents output.new) result }
{
    let printed = read_and_print(source, output);
    if let Err(failure) = printed {
        let _ = print_lines(errors, format_args!("maskreport: {failure}\n"));
    }
    printed
}

// Prints the report. Reads one more byte than a report takes, so that longer input is seen. An array, not a `Vec`: with a `Vec` `run` would
// require an allocator of its callers.
fn read_and_print<R: Read, W: Write>(source: &mut R, output: &mut W) -> Result<(), Failure>
    ensures { Outcome (R.remaining source.old) (W.contents output.old) (W.contents output.new) result }
{
    let mut buf = [0u8; 65537];
    let size = read_to_end(source, &mut buf).or(Err(Failure::Input))?;
    print(output, report(&buf[..size])).or(Err(Failure::Output))
}

// Reads until the buffer is full, the input ends or a read fails, and returns the number of bytes. A read may return fewer than it could. A
// loop, since of the library's methods `read_exact` returns no count if the input ends early, and `read_to_end` needs a `Vec`.
fn read_to_end<R: Read>(source: &mut R, buf: &mut [u8]) -> io::Result<usize>
    ensures bound { ReadsAtMost result buf.new }
    ensures bytes { IfOk result (λ n. Consumes (R.remaining source.old) (R.remaining source.new) (take n buf.new)) }
    ensures end { IfOk result (λ n. n < length buf.new → IsAtEnd (R.remaining source.new)) }
{
    let mut size = 0;
    while size < buf.len() {
        let more = source.read(&mut buf[size..])?;
        if more == 0 {
            return Ok(size);
        }
        size += more;
    }
    Ok(size)
}

// Prints the numbers, or only `refused=1` for longer input, which has no report.
fn print<W: Write>(output: &mut W, report: Option<Numbers>) -> io::Result<()>
    ensures { OnOk result (Appends (W.contents output.old) (W.contents output.new) (text_of report)) }
{
    match report {
        Some(numbers) => print_lines(output, numbers),
        None => print_lines(output, "refused=1\n"),
    }
}

// Prints the text of `value`, each line as one write: `write!` to `output` would make a write of each piece of a line. Stops at the first
// write that fails. The longest text is that of a report: 23 bytes of keys and `=`, four numbers of at most 20 digits and four line feeds.
fn print_lines<W: Write, D: fmt::Display + Drop>(output: &mut W, value: D) -> io::Result<()>
    ensures { OnOk result (IfSome (D.output value) (Appends (W.contents output.old) (W.contents output.new))) }
{
    let mut text = InlineText::<107>::new();
    write!(text, "{value}")?;
    for line in text.as_str().split_inclusive('\n') {
        output.write_all(line.as_bytes())?;
    }
    Ok(())
}
