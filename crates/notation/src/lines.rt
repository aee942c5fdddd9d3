//! The bytes of a reader, taken apart into lines.
ghost use Rattle.std.specs.Prelude.{◌≡◌, ◌≢◌, ◌<◌, [], ◌++◌, length, take, drop, nat_lt, position};
ghost use Rattle.std.specs.Prelude.{IfOk, IfErr, OnOk, is_ok, true, false, if◌then◌else◌};
ghost use Rattle.notation.specs.Fault.{IsNoMemory};
ghost use Rattle.notation.specs.Lines.{ends, begun, is_feed, gone_on, step_over, left_of, unread};
ghost use Rattle.notation.specs.declared.lines.Step.TheVariants.{Line};

use crate::fault::Fault;
use crate::lent::first;
use crate::list::List;
use std::alloc::AllocError;
use std::io;
use std::io::Read;

// The number of bytes that are read at a time.
const WINDOW: usize = 65536;

// A line has fewer bytes than this.
const LINE: usize = 16384;

/// The result of a step of a reader: it read on, or took the rest of what it had read; or took the end of a line; or reached the end of the
/// input, and so of the last line, which may have no line feed. The line itself is returned by `line`: a step that lent it would borrow
/// `self`, and its clauses could not name `self.new`.
#[derive(Clone, Copy, Debug, PartialEq, Eq)]
pub enum Step {
    Part,
    Line,
    Last,
}

/// Lines are cut by hand, over a window in memory that is lent: a `BufReader` takes its memory from an allocator.
#[derive(Drop)]
pub struct Lines<'a, 'b, R: Read + Drop> {
    source: R,
    // What was read last, of which `taken` bytes are taken.
    window: List<'a, u8>,
    taken: usize,
    // The line in progress, or the one that the last step ended: at most LINE bytes, so that a longer one shows.
    line: List<'b, u8>,
    // Whether the last step ended the line: a state of its own, since the line stays until the next step.
    ended: bool,
}

impl<'a, 'b, R: Read + Drop> Lines<'a, 'b, R> {
    /// Returns the lines of a reader, before the first step. Fails if there is no room for what is read.
    pub fn new(window: &'a mut [u8], line: &'b mut [u8], source: R) -> io::Result<Lines<'a, 'b, R>>
        ensures line { IfOk result (λ lines. lines.line.items ≡ []) }
        ensures ended { IfOk result (λ lines. lines.ended ≡ false) }
        ensures failed { IfErr result IsNoMemory }
    {
        if window.is_empty() {
            return Err(io::Error::from(AllocError));
        }
        Ok(Lines {
            source,
            window: List::new(window),
            taken: 0,
            line: List::new(line),
            ended: false,
        })
    }

    /// Takes the bytes that were read, up to a line feed, or reads on if none are left. Fails if memory lacks or a read fails. The contract
    /// states in full what becomes of bytes that were read. It leaves open which bytes come next and which reads fail: both depend on the
    /// reader.
    pub fn step(&mut self) -> io::Result<Step>
        ensures ended { IfOk result (λ step. self.new.ended ≡ ends step) }
        ensures line { OnOk result (self.new.line.items ≡ gone_on (begun self.old) (unread self.old)) }
        ensures step { unread self.old ≢ [] → IfOk result (λ step. step ≡ step_over (unread self.old)) }
        ensures left { unread self.old ≢ [] → OnOk result (unread self.new ≡ left_of (unread self.old)) }
        ensures empty { unread self.old ≡ [] → IfOk result (λ step. step ≢ Line) }
        ensures failed { unread self.old ≢ [] → IfErr result IsNoMemory }
    {
        if self.ended {
            self.line.clear();
            self.ended = false;
        }
        if !self.buffer().is_empty() {
            return self.take();
        }
        if self.read()? == 0 {
            return Ok(Step::Last);
        }
        Ok(Step::Part)
    }

    // Returns the bytes that were read and are not taken.
    fn buffer(&self) -> &[u8]
        ensures { result.now ≡ unread self.now }
    {
        self.window.as_slice().get(self.taken..).unwrap_or(&[])
    }

    // Reads on, over what was read. Returns how many bytes were read.
    fn read(&mut self) -> io::Result<usize>
        ensures line { self.new.line ≡ self.old.line }
        ensures ended { self.new.ended ≡ self.old.ended }
    {
        self.taken = 0;
        let read = self.source.read(self.window.start(WINDOW));
        let n = match &read {
            Ok(n) => *n,
            Err(_) => 0,
        };
        self.window.truncate(n);
        read
    }

    // Takes the bytes that were read, up to and with a line feed.
    fn take(&mut self) -> io::Result<Step>
        ensures ended { IfOk result (λ step. self.new.ended ≡ (if ends step then true else self.old.ended)) }
        ensures line { OnOk result (self.new.line.items ≡ gone_on self.old.line.items (unread self.old)) }
        ensures step { IfOk result (λ step. step ≡ step_over (unread self.old)) }
        ensures left { OnOk result (unread self.new ≡ left_of (unread self.old)) }
        ensures failed { IfErr result IsNoMemory }
    {
        let read = self.buffer();
        let feed = feed_in(read);
        let size = feed.unwrap_or(read.len());
        let room = LINE.saturating_sub(self.line.len());
        append(&mut self.line, &self.window, self.taken, size.min(room))?;
        // with the line feed, if there is one
        let all = self.window.len();
        let taken = self.taken.saturating_add(size.saturating_add(1));
        self.taken = taken.min(all);
        match feed {
            None => Ok(Step::Part),
            Some(_) => {
                self.ended = true;
                Ok(Step::Line)
            }
        }
    }

    /// Returns the line that the last step ended; one of LINE bytes is malformed.
    pub fn line(&self) -> Result<&[u8], Fault>
        ensures short { IfOk result (λ line. length line.now < 16384) }
        ensures bytes { IfOk result (λ line. line.now ≡ self.now.line.items) }
        ensures given { is_ok result ≡ nat_lt (length self.now.line.items) 16384 }
    {
        if self.line.len() < LINE {
            Ok(self.line.as_slice())
        } else {
            Err(Fault::Malformed)
        }
    }
}

// Appends n of the bytes that were read, after those that are taken. A function of its own: a slice of the window stays lent while the
// line, which holds a reference too, is written.
fn append(
    line: &mut List<'_, u8>,
    window: &List<'_, u8>,
    taken: usize,
    n: usize,
) -> Result<(), AllocError>
    ensures { OnOk result (line.new.items ≡ line.old.items ++ take n (drop taken window.now.items)) }
{
    let read = window.as_slice().get(taken..).unwrap_or(&[]);
    line.extend_from_slice(first(read, n))
}

// Returns the place of the first line feed.
fn feed_in(read: &[u8]) -> Option<usize>
    ensures { result ≡ position is_feed read.now }
{
    read.iter().position(|b| *b == b'\n')
}
