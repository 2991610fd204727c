// `char MINUTE HEX TEXT`: charring of the record's panel at a minute. Prints the char depth in micrometres, the effective depth in tenths
// of mm and the phase, or the refusal, and the text. A refused record stands for a blank panel.
use panel::Panel;
use phases::Phase;
use phases::calls::{char_depth, effective_depth, phase};
use refusals::refusal::Refusal;
use std::fmt;

#[derive(Clone, Copy)]
pub struct Charred {
    depth: u32,
    effective: u32,
    phase: Phase,
}

impl fmt::Display for Charred {
    fn fmt<W: fmt::Write>(&self, f: &mut fmt::Formatter<W>) -> fmt::Result {
        let Charred {
            depth,
            effective,
            phase,
        } = *self;
        write!(f, "{depth} {effective} ")?;
        match phase {
            Phase::Untouched => f.write_str("untouched"),
            Phase::UnderCladding => f.write_str("under cladding"),
            Phase::Fast(end) => write!(f, "fast {end}"),
            Phase::Settled => f.write_str("settled"),
        }
    }
}

pub fn at_minute(p: Panel, minute: u16) -> Result<Charred, Refusal> {
    Ok(Charred {
        depth: char_depth(p, minute)?,
        effective: effective_depth(p, minute)?,
        phase: phase(p, minute)?,
    })
}
