// A minute that a call may be asked for, and that a card gives: at most 360.
ghost use Rattle.std.specs.Prelude.{◌≡◌, ◌≤◌, min};
ghost use Rattle.refusals.specs.Numbers.{by_number};
ghost use Rattle.refusals.specs.Causes.{last_minute};
ghost use Rattle.limits.specs.Answers.{minute_answer};

use crate::LAST_MINUTE;
use refusals::refusal::Refusal;
use refusals::table::refuse_if;
use std::marker::Model;

// In clauses it is the number. It stays as it is beside grades' `Grade`: not every minute is a grade.
#[derive(Clone, Copy)]
pub struct Minute {
    number: u16,
}

impl Model for Minute {
    ghost use Rattle.std.specs.Prelude.{ℕ};

    ghost Value = { ℕ };

    ghost use Rattle.std.specs.Prelude.{◌≤◌};
    ghost use Rattle.refusals.specs.Causes.{last_minute};

    ghost view = { λ m. m.number };

    ghost invariant = { λ m. m.number ≤ last_minute };

    ghost inverse = { λ n. record { number = n } };
}

impl Minute {
    // A minute asked for or wanted: line 15 refuses one above 360.
    pub fn asked(number: u16) -> Result<Minute, Refusal>
        ensures { by_number result ≡ minute_answer number }
    {
        refuse_if(LAST_MINUTE < number, Refusal::Minute)?;
        Ok(Minute { number })
    }

    // At most 360.
    pub fn of(number: u16) -> Minute
        requires { number ≤ last_minute }
        ensures { result ≡ number }
    {
        Minute { number }
    }

    pub fn number(self) -> u16
        ensures number { result ≡ self }
        ensures most { result ≤ last_minute }
    {
        self.number
    }

    pub fn lower(self, other: Minute) -> Minute
        ensures { result ≡ min self other }
    {
        Minute {
            number: self.number.min(other.number),
        }
    }
}
