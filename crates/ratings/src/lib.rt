// The grades of a panel (document 01, "Layer times"): for load (R), for integrity and insulation (EI), and for both (REI).
// The open calls are in `calls`.
#![tactic(auto)]

ghost use Rattle.std.specs.Prelude.{◌≡◌};
ghost use Rattle.layers.specs.Layers.{printed_ei};
ghost use Rattle.load.specs.LoadMinute.{printed_load, printed_load_seconds, minutes_in};
ghost use Rattle.ratings.specs.Answers.{load_grade, ei_grade, rei_grade};

pub mod calls;

use grades::Grade;
use layers::minutes::ei_minute_of;
use limits::check::Accepted;
use limits::minute::Minute;
use load::minutes::{load_seconds_of, minutes_in};
use panel::Panel;

// What is printed of an accepted panel's times, each worked out once: R, the same in seconds, and EI.
#[derive(Clone, Copy)]
pub struct Ratings {
    pub panel: Panel,
    pub load: Minute,
    pub seconds: u16,
    pub ei: Minute,
    ghost load_is: { load ≡ printed_load panel },
    ghost seconds_is: { seconds ≡ printed_load_seconds panel },
    ghost ei_is: { ei ≡ printed_ei panel },
}

impl Ratings {
    // A hint to the back end: the card and planing would share it otherwise, and a card take 40 instructions more.
    #[inline(always)]
    #[tactic(auto, using(load::proofs::EveryFire::printed_most))]
    pub fn of(accepted: Accepted) -> Ratings
        ensures { result.panel ≡ accepted }
    {
        let seconds = load_seconds_of(accepted);
        Ratings {
            panel: accepted.panel(),
            load: Minute::of(minutes_in(seconds)),
            seconds,
            ei: ei_minute_of(accepted),
        }
    }

    // The grade of R.
    pub fn load_grade(&self) -> Grade
        ensures { result ≡ load_grade self.now.panel }
    {
        Grade::of(self.load)
    }

    // The grade of EI.
    pub fn ei_grade(&self) -> Grade
        ensures { result ≡ ei_grade self.now.panel }
    {
        Grade::of(self.ei)
    }

    // The REI grade, of the lower of R and EI.
    pub fn rei_grade(&self) -> Grade
        ensures { result ≡ rei_grade self.now.panel }
    {
        Grade::of_lower(self.load, self.ei)
    }
}
