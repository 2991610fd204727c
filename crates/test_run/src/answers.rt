// What calls answer, and how each answer is printed.
ghost use Rattle.std.specs.Prelude.{◌≡◌};

use grades::Grade;
use load::MinutesAndSeconds;
use planing::Cut;
use refusals::refusal::Refusal;
use section::Section;
use std::{fmt, io};
use test_lines::output;

pub trait Answer {
    // In the line, between the call's word and the text.
    fn print(&self, rt: &impl Print) -> io::Result<()>;

    // Behind the line.
    fn print_behind(&self, _rt: &impl Print) -> io::Result<()> {
        Ok(())
    }
}

// The value, or the refusal.
impl<T: fmt::Display> Answer for Result<T, Refusal> {
    fn print(&self, rt: &impl Print) -> io::Result<()> {
        match self {
            Ok(value) => print!(rt; "{value}"),
            Err(refusal) => print!(rt; "{refusal}"),
        }
    }
}

// The answer, or that the line asks for nothing that there is.
impl<T: Answer> Answer for Option<T> {
    fn print(&self, rt: &impl Print) -> io::Result<()> {
        match self {
            Some(answer) => answer.print(rt),
            None => output::text(rt, b"unknown"),
        }
    }
}

// Whether two panels are the same build.
#[derive(Clone, Copy)]
pub struct Same(pub bool);

impl fmt::Display for Same {
    fn fmt<W: fmt::Write>(&self, f: &mut fmt::Formatter<W>) -> fmt::Result {
        f.write_str(if self.0 { "same" } else { "different" })
    }
}

// A grade, in minutes.
pub(crate) fn minutes(grade: Grade) -> u16
    ensures { result ≡ grade.minutes }
{
    grade.minutes
}

// A failure time.
#[derive(Clone, Copy)]
pub struct Time(pub MinutesAndSeconds);

impl fmt::Display for Time {
    fn fmt<W: fmt::Write>(&self, f: &mut fmt::Formatter<W>) -> fmt::Result {
        let MinutesAndSeconds { minutes, seconds } = self.0;
        write!(f, "{minutes} {seconds}")
    }
}

// The least cut that lowers the grade, where there is one.
#[derive(Clone, Copy)]
pub struct LeastCut(pub Option<Cut>);

impl fmt::Display for LeastCut {
    fn fmt<W: fmt::Write>(&self, f: &mut fmt::Formatter<W>) -> fmt::Result {
        match self.0 {
            Some(Cut { place, tenths }) => write!(f, "place {place} tenths {tenths}"),
            None => f.write_str("none"),
        }
    }
}

// N, P, Q, lo and hi.
#[derive(Clone, Copy)]
pub struct Parts(pub Section);

impl fmt::Display for Parts {
    fn fmt<W: fmt::Write>(&self, f: &mut fmt::Formatter<W>) -> fmt::Result {
        let Section { n, p, q, lo, hi } = self.0;
        write!(f, "{n} {p} {q} {lo} {hi}")
    }
}

// A section, and whether its depth passes.
#[derive(Clone, Copy)]
pub struct Tested(pub (Section, bool));

impl fmt::Display for Tested {
    fn fmt<W: fmt::Write>(&self, f: &mut fmt::Formatter<W>) -> fmt::Result {
        let (section, passes) = self.0;
        let word = if passes { "passes" } else { "fails" };
        write!(f, "{} {word}", Parts(section))
    }
}
