//! How many requests of each call were made, how many calls they are, and how many requests differ; and what is printed.
ghost use Rattle.std.specs.Prelude.{◌≡◌, Some, slice_get};
ghost use Rattle.notation.specs.Tally.{begun, line_counted, malformed_counted, wrong_counted, shows};
ghost use Rattle.notation.specs.Tally.{added, row_added, request_added, counted, is_printed, count_text};

use crate::names;
use crate::names::CALLS;
use crate::outcome::{Outcome, Verdict};
use std::{array, fmt};

// At most this many wrong lines are printed.
const SHOWN: u64 = 20;

#[derive(Clone, Copy, Debug, Default)]
pub(crate) struct Count {
    requests: u64,
    calls: u64,
    differing: u64,
}

impl Count {
    fn add(&mut self, calls: u64, verdict: Verdict)
        ensures { self.new ≡ added self.old calls verdict }
    {
        self.requests = self.requests.saturating_add(1);
        self.calls = self.calls.saturating_add(calls);
        if verdict == Verdict::Differs {
            self.differing = self.differing.saturating_add(1);
        }
    }
}

impl fmt::Display for Count {
    ghost output = { λ c. Some (count_text c) };

    fn fmt<W: fmt::Write>(&self, f: &mut fmt::Formatter<W>) -> fmt::Result {
        let Count {
            requests,
            calls,
            differing,
        } = *self;
        write!(f, "{requests} requests, {calls} calls, {differing} differ")
    }
}

// A call's name, and its requests.
#[derive(Clone, Copy, Debug)]
pub(crate) struct Row {
    name: &'static str,
    count: Count,
}

/// A row for each call, in the order of the names; the requests of all; those with no answer; the lines so far, the malformed ones, and
/// those that differ or are malformed.
#[derive(Drop)]
pub struct Tally {
    pub(crate) rows: [Row; CALLS],
    pub(crate) total: Count,
    pub(crate) made: u64,
    pub(crate) lines: u64,
    pub(crate) malformed: u64,
    pub(crate) wrong: u64,
}

impl Tally {
    /// Returns a tally with a row for each call and nothing counted.
    pub fn new() -> Tally
        ensures { result ≡ begun result }
    {
        Tally {
            rows: rows(),
            total: Count::default(),
            made: 0,
            lines: 0,
            malformed: 0,
            wrong: 0,
        }
    }

    /// Counts a line. Returns its number.
    pub fn count_line(&mut self) -> u64
        ensures after { self.new ≡ line_counted self.old }
        ensures number { result ≡ self.new.lines }
    {
        self.lines = self.lines.saturating_add(1);
        self.lines
    }

    /// Counts a malformed line. Returns whether it is to be printed.
    pub fn count_malformed(&mut self) -> bool
        ensures after { self.new ≡ malformed_counted self.old }
        ensures printed { result ≡ shows self.old }
    {
        self.malformed = self.malformed.saturating_add(1);
        self.count_wrong()
    }

    /// Counts a request. Returns whether it is to be printed: it differs, and is among the first lines that are wrong.
    pub fn count(&mut self, outcome: Outcome) -> bool
        ensures after { self.new ≡ counted self.old outcome }
        ensures printed { result ≡ is_printed self.old outcome.verdict }
    {
        self.add(outcome);
        match outcome.verdict {
            Verdict::Same => false,
            Verdict::Differs => self.count_wrong(),
            Verdict::Made => {
                self.made = self.made.saturating_add(1);
                false
            }
        }
    }

    // Counts a request in its row and in the total.
    fn add(&mut self, outcome: Outcome)
        ensures { self.new ≡ request_added self.old outcome }
    {
        self.total.add(outcome.calls, outcome.verdict);
        add_row(&mut self.rows, outcome);
    }

    // Counts a line that is wrong. Returns whether it is among the first, which are printed.
    fn count_wrong(&mut self) -> bool
        ensures after { self.new ≡ wrong_counted self.old }
        ensures printed { result ≡ shows self.old }
    {
        let shows = self.wrong < SHOWN;
        self.wrong = self.wrong.saturating_add(1);
        shows
    }
}

// Returns a row for each name, with no request. Not `NAMES.map(..)`: its check needs more than 4 GiB of memory.
fn rows() -> [Row; CALLS] {
    array::from_fn(|place| Row {
        name: names::name(place),
        count: Count::default(),
    })
}

// Counts a request in the row of its call. By an index: what a slice holds after a write through its `get_mut` has no clause in std.
fn add_row(rows: &mut [Row], outcome: Outcome)
    ensures { rows.new ≡ row_added rows.old (slice_get rows.old outcome.place) outcome }
{
    let place = outcome.place;
    if place < rows.len() {
        rows[place].count.add(outcome.calls, outcome.verdict);
    }
}

// A line for each call that was requested, and the totals.
impl fmt::Display for Tally {
    fn fmt<W: fmt::Write>(&self, f: &mut fmt::Formatter<W>) -> fmt::Result {
        for row in &self.rows {
            let Row { name, count } = *row;
            if 0 < count.requests {
                writeln!(f, "{name}: {count}")?;
            }
        }
        let Tally {
            total,
            made,
            malformed,
            ..
        } = self;
        writeln!(f, "total: {total}")?;
        writeln!(f, "requests with no answer: {made}")?;
        write!(f, "malformed lines: {malformed}")
    }
}
