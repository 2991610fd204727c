// Every open call that takes a panel, each handed the same raw panel.
//
// `panel RAW MINUTE DEPTH TEXT`: prints the number of each call's refusal, 0 for none, or `all` and the number where it is one; `kept` where
// every lent space is unchanged past what was written (on a refusal whole), or `changed`; and the text. The calls are, in this order:
//
// - limits: `panel_check`, `Accepted::of`, `section` at DEPTH; builds: `same_build` with panel G as the second panel, and as the first;
// - layers: `ei_sum`, `ei`; limits: `asked` at MINUTE; phases: `char_depth`, `effective_depth`, `phase` at MINUTE, `depth_table` with room
//   and with none;
// - load: `load_minute`, `load_time`, `reserve` against MINUTE; ratings: `load_grade`, `ei_grade`, `rei_grade`; `planing`; record: `write`
//   with room and with none.
//
// Below an accepted panel stands what the calls answer, a line for each, as the word of the call prints it.
//
// `each AT RAW MINUTE DEPTH TEXT`: prints the place AT and the text; and below, for each of the 256 bytes at the place AT of the raw panel,
// what `panel` prints of it, named by the byte.
//
// `pair RAW RAW TEXT`: whether two raw panels are the same build.
//
// `start RAW TEXT`: t_ch of the raw panel's gap and boards, in thousandths of a minute.
use crate::answers::{Answer, LeastCut, Same, Tested, Time, minutes};
use crate::lines::Line;
use crate::raw::Raw;
use crate::{chars, sums, tables, writes};
use builds::calls::same_build;
use layers::calls::{ei, ei_sum};
use limits::asked::asked;
use limits::calls::{panel_check, section};
use limits::check::Accepted;
use load::calls::{load_minute, load_time, reserve};
use panel::boards::charring_start;
use panel::{Cladding, Panel};
use phases::calls::{char_depth, effective_depth, phase};
use planing::calls::planing;
use ratings::calls::{ei_grade, load_grade, rei_grade};
use refusals::refusal::Refusal;
use std::io;
use test_lines::input::{number, number16};
use test_lines::output;

// The document's panel G, which every panel is compared with.
const G: Panel = Panel {
    version: 1,
    face: 0,
    bond: 0,
    rate: 65,
    gap: 0,
    strength: 240,
    moment: 3000,
    failure_time: 0,
    cladding: Cladding::Unclad,
    count: 3,
    directions: [1, 0, 1, 0, 0, 0, 0, 0, 0],
    thicknesses: [300, 400, 300, 0, 0, 0, 0, 0, 0],
};

// The refusal's number, 0 where there is none, which is kept as it is: the output has it so.
fn number_of<T: Drop>(answer: Result<T, Refusal>) -> u8 {
    answer.err().map_or(0, u8::from)
}

// A panel, and what its calls are asked for. The minute and the depth are kept as they are, numbers of any size, which calls refuse or take.
#[derive(Clone, Copy)]
struct Asked {
    p: Panel,
    minute: u16,
    depth: u32,
}

impl Asked {
    fn print_refusals(self, rt: &impl Print) -> io::Result<()> {
        let Asked { p, minute, depth } = self;
        let numbers = [
            number_of(panel_check(p)),
            number_of(Accepted::of(p)),
            number_of(section(p, depth)),
            number_of(same_build(p, G)),
            number_of(same_build(G, p)),
            number_of(ei_sum(p)),
            number_of(ei(p)),
            number_of(asked(p, minute)),
            number_of(char_depth(p, minute)),
            number_of(effective_depth(p, minute)),
            number_of(phase(p, minute)),
            number_of(tables::fill(p, 400).answer),
            number_of(tables::fill(p, 0).answer),
            number_of(load_minute(p)),
            number_of(load_time(p)),
            number_of(reserve(p, minute)),
            number_of(load_grade(p)),
            number_of(ei_grade(p)),
            number_of(rei_grade(p)),
            number_of(planing(p)),
            number_of(writes::write(p, 64).answer),
            number_of(writes::write(p, 0).answer),
        ];
        let first = numbers[0];
        if numbers.iter().all(|number| *number == first) {
            return print!(rt; "all {first} ");
        }
        for number in numbers {
            print!(rt; "{number} ")?;
        }
        Ok(())
    }

    // Of each lent space, with room and with none.
    fn past_kept(self) -> bool {
        let p = self.p;
        let tables = tables::fill(p, 400).past_kept() & tables::fill(p, 0).past_kept();
        let records = writes::write(p, 64).past_kept() & writes::write(p, 0).past_kept();
        tables & records
    }

    fn print_values(self, rt: &impl Print) -> io::Result<()> {
        let Asked { p, minute, depth } = self;
        print_value(rt, b"section", section(p, depth).map(Tested))?;
        print_value(rt, b"build", same_build(p, G).map(Same))?;
        print_value(rt, b"build", same_build(G, p).map(Same))?;
        print_value(rt, b"sum", sums::layer_times(p))?;
        print_value(rt, b"char", chars::at_minute(p, minute))?;
        print_value(rt, b"table", tables::fill(p, 400))?;
        print_value(rt, b"load", load_minute(p))?;
        print_value(rt, b"seconds", load_time(p).map(Time))?;
        print_value(rt, b"reserve", reserve(p, minute))?;
        print_value(rt, b"loadgrade", load_grade(p).map(minutes))?;
        print_value(rt, b"eigrade", ei_grade(p).map(minutes))?;
        print_value(rt, b"reigrade", rei_grade(p).map(minutes))?;
        print_value(rt, b"planing", planing(p).map(LeastCut))?;
        print_value(rt, b"write", writes::write(p, 64))
    }
}

fn print_value<T: Answer + Drop>(rt: &impl Print, call: &[u8], answer: T) -> io::Result<()> {
    output::text(rt, b"  ")?;
    output::text(rt, call)?;
    output::text(rt, b" ")?;
    answer.print(rt)?;
    output::text(rt, b"\n")
}

impl Answer for Asked {
    fn print(&self, rt: &impl Print) -> io::Result<()> {
        self.print_refusals(rt)?;
        let kept = self.past_kept();
        output::text(rt, if kept { b"kept" } else { b"changed" })
    }

    fn print_behind(&self, rt: &impl Print) -> io::Result<()> {
        if Accepted::of(self.p).is_ok() {
            self.print_values(rt)?;
        }
        Ok(())
    }
}

// A raw panel with a place whose byte varies, and what its calls are asked for. The place is kept as it is, a number of the line.
#[derive(Clone, Copy)]
struct Each {
    at: usize,
    raw: Raw,
    minute: u16,
    depth: u32,
}

impl Each {
    fn asked(self, byte: u8) -> Asked {
        let Each {
            at,
            raw,
            minute,
            depth,
        } = self;
        Asked {
            p: raw.with(at, byte).panel(),
            minute,
            depth,
        }
    }
}

impl Answer for Each {
    fn print(&self, rt: &impl Print) -> io::Result<()> {
        let at = self.at;
        print!(rt; "{at}")
    }

    fn print_behind(&self, rt: &impl Print) -> io::Result<()> {
        for byte in 0..=255 {
            let asked = self.asked(byte);
            asked.print(rt)?;
            print!(rt; " {byte:02x}\n")?;
            asked.print_behind(rt)?;
        }
        Ok(())
    }
}

pub fn answer_panel(rt: &impl Print, line: Line<'_>) -> io::Result<()> {
    let (raw, line) = line.next();
    let p = Raw::of(raw).panel();
    line.by_words(
        rt,
        |minute, depth| Asked {
            p,
            minute: number16(minute),
            depth: number(depth, u32::MAX),
        },
    )
}

pub fn answer_each(rt: &impl Print, line: Line<'_>) -> io::Result<()> {
    let (at, line) = line.next();
    let (raw, line) = line.next();
    let at = number(at, usize::MAX);
    let raw = Raw::of(raw);
    line.by_words(
        rt,
        |minute, depth| Each {
            at,
            raw,
            minute: number16(minute),
            depth: number(depth, u32::MAX),
        },
    )
}

pub fn pair(a: &[u8], b: &[u8]) -> Result<Same, Refusal> {
    same_build(Raw::of(a).panel(), Raw::of(b).panel()).map(Same)
}

// What `charring_start` answers, which asks nothing and refuses nothing.
pub fn start(raw: &[u8]) -> Result<u32, Refusal> {
    let Panel { gap, cladding, .. } = Raw::of(raw).panel();
    Ok(charring_start(gap, cladding))
}
