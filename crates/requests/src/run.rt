//! Standard input, line by line, and the memory in which all lists lie: each function has some of it in its frame and lends it to the next.
use crate::session::Session;
use notation::answer::Token;
use notation::items::Items;
use notation::last::Last;
use notation::lent::Rooms;
use notation::lines::{Lines, Step};
use std::io;
use std::io::Read;

// At most this many steps are made, each to the end of a line or of what was read at once, so that the program ends on input that does not.
const STEPS: usize = 4194304;

// Room for x, y, z and o, for the bytes that a call writes, and for i or e with the numbers or the ends that a call writes.
const INPUTS: usize = 2097408;

const OUTPUT: usize = 524352;

const NUMBERS: usize = 131072;

// The tokens of an answer: more than any call has.
const TOKENS: usize = 64;

// The bytes that are read at a time, and those of a line.
const WINDOW: usize = 65536;

const LINE: usize = 16384;

/// Reads requests to the end of the input, makes them, and prints the outcome. Ends with an error if a read or a write fails.
pub fn run(rt: &(impl io::Input + Print)) -> io::Result<()> {
    let mut space = inputs();
    let inputs: &mut [u8] = &mut space;
    with_output(rt, inputs)
}

// A function of its own, as `output`: the check runs out of stack on an array of this size that is lent where it is written.
fn inputs() -> [u8; INPUTS] {
    [0; INPUTS]
}

fn output() -> [u8; OUTPUT] {
    [0; OUTPUT]
}

fn with_output(rt: &(impl io::Input + Print), inputs: &mut [u8]) -> io::Result<()> {
    let mut space = output();
    let output: &mut [u8] = &mut space;
    with_numbers(rt, inputs, output)
}

fn with_numbers(
    rt: &(impl io::Input + Print),
    inputs: &mut [u8],
    output: &mut [u8],
) -> io::Result<()> {
    let mut space = [0u32; NUMBERS];
    let numbers: &mut [u32] = &mut space;
    with_ends(rt, inputs, output, numbers)
}

fn with_ends(
    rt: &(impl io::Input + Print),
    inputs: &mut [u8],
    output: &mut [u8],
    numbers: &mut [u32],
) -> io::Result<()> {
    let mut space = [0i32; NUMBERS];
    let ends: &mut [i32] = &mut space;
    let (first, second) = halves(inputs);
    let (x, y) = halves(first);
    let (z, o) = halves(second);
    let (i, numbers) = halves(numbers);
    let (e, ends) = halves(ends);
    with_rooms(rt, Rooms { x, y, z, o, i, e }, output, numbers, ends)
}

fn halves<T>(room: &mut [T]) -> (&mut [T], &mut [T]) {
    let half = room.len() / 2;
    room.split_at_mut(half)
}

fn with_rooms(
    rt: &(impl io::Input + Print),
    rooms: Rooms,
    output: &mut [u8],
    numbers: &mut [u32],
    ends: &mut [i32],
) -> io::Result<()> {
    let mut space = [Token::Missing; TOKENS];
    let tokens: &mut [Token] = &mut space;
    let last = Last::new(tokens, output, numbers, ends);
    let mut items = Items::new();
    let mut left = Items::new();
    let mut session = Session::new(rooms, last, &mut items, &mut left);
    with_lines(rt, &mut session)
}

fn with_lines(rt: &(impl io::Input + Print), session: &mut Session) -> io::Result<()> {
    let mut window_space = [0u8; WINDOW];
    let window: &mut [u8] = &mut window_space;
    let mut line_space = [0u8; LINE];
    let line: &mut [u8] = &mut line_space;
    let mut lines = Lines::new(window, line, rt.reader())?;
    if !read(rt, &mut lines, session)? {
        println!(rt; "standard input is too long")?;
    }
    session.print(rt)
}

// Makes the requests of the input, and returns whether it was read to its end.
fn read<R: Read + Drop>(
    rt: &impl Print,
    lines: &mut Lines<R>,
    session: &mut Session,
) -> io::Result<bool> {
    for _ in 0..STEPS {
        match lines.step()? {
            Step::Part => {}
            Step::Line => session.line(rt, lines.line())?,
            Step::Last => {
                session.line(rt, lines.line())?;
                return Ok(true);
            }
        }
    }
    Ok(false)
}
