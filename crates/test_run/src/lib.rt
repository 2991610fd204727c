// What the test program does with an input: answers each of its lines. The first word names a call, and what follows is the call's. The
// answer begins with the same word. A line with another first word gives `unknown` and what follows. A new call is an arm below, and a
// module where more is printed than an answer of `answers`.
//
// A record (HEX, in hexadecimal, `-` for no byte) stands for its panel, and a refused one for a blank panel; a raw panel (RAW) is given
// number by number (`raw`, `panels`). Where nothing else is said, a line is answered by what its call answers, or the refusal, and by TEXT:
//
// - `build HEX HEX TEXT`: whether the two panels are the same build.
// - `section DEPTH HEX TEXT`: the section at a depth in tenths of mm: N, P, Q, lo and hi and whether the depth passes.
// - `grade MINUTE TEXT`: the grade of a bare minute, in minutes; `rei R EI TEXT`: that of the lower of two; `loadgrade HEX TEXT`, `eigrade
//   HEX TEXT`, `reigrade HEX TEXT`: that of the panel for load, for EI, for both.
// - `load HEX TEXT`: the load minute; `seconds HEX TEXT`: the failure time in whole minutes and seconds; `reserve HEX WANTED TEXT`: the
//   reserve against a wanted minute.
// - `planing HEX TEXT`: the least cut of one lamella that lowers the REI grade, as the lamella's place and the tenths of mm, or `none`.
#![tactic(auto)]

pub mod answers;
mod cards;
mod chars;
mod lending;
mod lines;
mod panels;
mod raw;
mod reads;
mod records;
mod sections;
mod sums;
mod tables;
mod times;
mod writes;

use answers::{LeastCut, Same, Tested, Time, minutes};
use builds::calls::same_build;
use grades::calls::{grade_of, rei_of};
use lent_input::read_whole;
use limits::calls::section;
use lines::Line;
use load::calls::{load_minute, load_time, reserve};
use planing::calls::planing;
use ratings::calls::{ei_grade, load_grade, rei_grade};
use records::panel_of;
use sections::carried_answer;
use std::io;
use std::io::Read;
use test_lines::input::{number, number16};
use test_lines::output;

fn answer(rt: &impl Print, text: &[u8]) -> io::Result<()> {
    let line = Line::of(text);
    match line.word {
        b"read" => line.by_word(rt, reads::read),
        b"write" => line.by_panel_at(rt, |p, space| writes::write(p, number(space, usize::MAX))),
        b"build" => line.by_words(rt, |a, b| same_build(panel_of(a), panel_of(b)).map(Same)),
        b"section" => line.by_panel_at(
            rt,
            |p, depth| section(p, number(depth, u32::MAX)).map(Tested),
        ),
        b"carried" => line.by_panel_at(
            rt,
            |p, depth| carried_answer(p, number(depth, u32::MAX)).map(Tested),
        ),
        b"char" => line.by_panel_at(rt, |p, minute| chars::at_minute(p, number16(minute))),
        b"table" => line.by_panel_at(rt, |p, space| tables::fill(p, number(space, usize::MAX))),
        b"time" => line.by_words(rt, |kind, h| times::time(kind, number16(h))),
        b"sum" => line.by_panel(rt, sums::layer_times),
        b"grade" => line.by_word(rt, |minute| grade_of(number16(minute)).map(minutes)),
        b"rei" => line.by_words(rt, |r, ei| rei_of(number16(r), number16(ei)).map(minutes)),
        b"card" => line.by_words(rt, cards::card),
        b"refusal" => line.by_words(rt, cards::refusal),
        b"load" => line.by_panel(rt, load_minute),
        b"seconds" => line.by_panel(rt, |p| load_time(p).map(Time)),
        b"reserve" => line.by_words(
            rt,
            |record, wanted| reserve(panel_of(record), number16(wanted)),
        ),
        b"loadgrade" => line.by_panel(rt, |p| load_grade(p).map(minutes)),
        b"eigrade" => line.by_panel(rt, |p| ei_grade(p).map(minutes)),
        b"reigrade" => line.by_panel(rt, |p| rei_grade(p).map(minutes)),
        b"planing" => line.by_panel(rt, |p| planing(p).map(LeastCut)),
        b"panel" => panels::answer_panel(rt, line),
        b"each" => panels::answer_each(rt, line),
        b"pair" => line.by_words(rt, panels::pair),
        b"start" => line.by_word(rt, panels::start),
        _ => output::unknown(rt, line.rest),
    }
}

fn answer_all(rt: &impl Print, text: &[u8]) -> io::Result<()> {
    for line in text.split_inclusive(|c| *c == b'\n') {
        answer(rt, line.strip_suffix(b"\n").unwrap_or(line))?;
    }
    Ok(())
}

// Bytes of an input, at most one less.
const ROOM: usize = 65536;

// Answers all lines of an input; of one that cannot be read to its end, or does not fit, none.
pub fn answer_input<R: Read>(rt: &impl Print, input: &mut R) -> io::Result<()> {
    let mut space = [0u8; ROOM];
    let text = read_whole(input, &mut space)?;
    answer_all(rt, text)
}
