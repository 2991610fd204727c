// Grades of fire resistance (document 01, "Layer times"): the constants, the grade of a minute, and REI. The open calls are in
// `calls`.
#![tactic(auto)]

pub mod calls;

ghost use Rattle.std.specs.Prelude.{◌≡◌, nat_le};
ghost use Rattle.std.specs.List.{find};
ghost use Rattle.grades.specs.Grades.{grade_of, rei_of};

use limits::minute::Minute;

// A grade, in minutes; 0 below the least, which is kept as it is: the papers print it, and `NONE` names it. A grade stays as it is beside
// limits' `Minute`: not every minute is a grade.
#[derive(Clone, Copy, PartialEq, Eq, PartialOrd, Ord)]
pub struct Grade {
    pub minutes: u16,
}

impl Grade {
    pub const NONE: Grade = Grade { minutes: 0 };

    pub const M10: Grade = Grade { minutes: 10 };

    pub const M15: Grade = Grade { minutes: 15 };

    pub const M20: Grade = Grade { minutes: 20 };

    pub const M30: Grade = Grade { minutes: 30 };

    pub const M45: Grade = Grade { minutes: 45 };

    pub const M60: Grade = Grade { minutes: 60 };

    pub const M90: Grade = Grade { minutes: 90 };

    pub const M120: Grade = Grade { minutes: 120 };

    pub const M180: Grade = Grade { minutes: 180 };

    pub const M240: Grade = Grade { minutes: 240 };

    pub const M360: Grade = Grade { minutes: 360 };

    // The grades, the greatest first.
    const DOWN: [Grade; 11] = [
        Grade::M360,
        Grade::M240,
        Grade::M180,
        Grade::M120,
        Grade::M90,
        Grade::M60,
        Grade::M45,
        Grade::M30,
        Grade::M20,
        Grade::M15,
        Grade::M10,
    ];

    // The greatest grade that is not above the minute.
    pub fn of(minute: Minute) -> Grade
        ensures { result ≡ grade_of minute }
    {
        first_to(&Grade::DOWN, minute.number()).unwrap_or(Grade::NONE)
    }

    // The grade of the lower of R and EI.
    pub fn of_lower(r: Minute, ei: Minute) -> Grade
        ensures { result ≡ rei_of r ei }
    {
        Grade::of(r.lower(ei))
    }
}

// The first of the grades that is not above the minute.
fn first_to(grades: &[Grade], minute: u16) -> Option<Grade>
    ensures { result ≡ find (λ g. nat_le g.minutes minute) grades.now }
{
    grades.iter().copied().find(|g| g.minutes <= minute)
}
