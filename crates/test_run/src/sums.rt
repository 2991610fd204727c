// `sum HEX TEXT`: the layer times of the record's panel. Prints their sum in thousandths of a minute and EI in minutes, or the refusal,
// and the text. A refused record stands for a blank panel.
use panel::Panel;
use refusals::refusal::Refusal;
use std::fmt;

// It stays as it is beside load's `MinutesAndSeconds`: two numbers too, of other things.
#[derive(Clone, Copy)]
pub struct LayerTimes {
    sum: u32,
    ei: u16,
}

impl fmt::Display for LayerTimes {
    fn fmt<W: fmt::Write>(&self, f: &mut fmt::Formatter<W>) -> fmt::Result {
        let LayerTimes { sum, ei } = *self;
        write!(f, "{sum} EI {ei}")
    }
}

pub fn layer_times(p: Panel) -> Result<LayerTimes, Refusal> {
    Ok(LayerTimes {
        sum: layers::calls::ei_sum(p)?,
        ei: layers::calls::ei(p)?,
    })
}
