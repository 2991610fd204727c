// `table SPACE HEX TEXT`: fills the depth table of the record's panel into SPACE lent numbers, at most 400. They are the front of 400
// numbers, each 7. Prints the answer, the sum of all 400, the sum of each times its place, those at the places 0, 90, 360 and 361, and
// the text. A refused record stands for a blank panel.
use crate::answers::Answer;
use crate::lending::lend;
use panel::Panel;
use refusals::refusal::Refusal;
use std::io;

// What the call answers, and the 400 numbers.
#[derive(Drop)]
pub struct Filled {
    pub answer: Result<(), Refusal>,
    entries: [u32; 400],
}

impl Filled {
    // Whether all numbers past the table (on a refusal all 400) are unchanged.
    pub fn past_kept(&self) -> bool {
        let count = if self.answer.is_ok() { 361 } else { 0 };
        self.entries[count..].iter().all(|entry| *entry == 7)
    }
}

// The sum of the entries, and the sum of each times its place: from the last entry on, what has been summed so far is added up.
fn print_sums(rt: &impl Print, entries: &[u32; 400]) -> io::Result<()> {
    let mut sum: u64 = 0;
    let mut placed: u64 = 0;
    for entry in entries.iter().rev() {
        placed += sum;
        sum += u64::from(*entry);
    }
    print!(rt; " {sum} {placed}")
}

impl Answer for Filled {
    fn print(&self, rt: &impl Print) -> io::Result<()> {
        self.answer.map(|()| "filled").print(rt)?;
        print_sums(rt, &self.entries)?;
        for place in [0, 90, 360, 361] {
            let entry = self.entries[place];
            print!(rt; " {entry}")?;
        }
        Ok(())
    }
}

// Kept as it is beside `write` of `writes`: each is one call of `lend`, and its answer has its own `impl Answer`.
pub fn fill(p: Panel, space: usize) -> Filled {
    let (answer, entries) = lend([7; 400], space, |out| phases::calls::depth_table(p, out));
    Filled { answer, entries }
}
