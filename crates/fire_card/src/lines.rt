// The lines of a card, one after the other. The longest card must fit. The room that each asks for stays as it is, as in
// `Text`.
ghost use Rattle.std.specs.Prelude.{◌≡◌, ◌+◌, ◌≤◌, ◌++◌, length};
ghost use Rattle.refusals.specs.Causes.{last_minute};
ghost use Rattle.fire_card.specs.Card.{char_line, char_lines, rating_lines, text_of_card, text_room};

use crate::TEXT_ROOM;
use charring::{CharringValues, Time};
use limits::check::Accepted;
use load::minutes::{minutes_in, seconds_over};
use ratings::Ratings;
use text_lines::text::Text;

// The bare minute is kept as it is: the line prints it, and the four are constants.
fn push_char(text: &mut Text<TEXT_ROOM>, fire: &CharringValues, minute: u32)
    requires minute_le_last_minute { minute ≤ last_minute }
    requires room { length text.old + 38 ≤ text_room }
    ensures added { text.new ≡ text.old ++ char_line fire.now.panel minute }
    ensures most { length text.new ≤ length text.old + 38 }
{
    let char = fire.micrometres(u64::from(minute));
    let depth = fire.tenths(Time::minute(u64::from(minute)));
    text.push_line(b"CHAR", &[minute, char, depth]);
}

fn push_chars(text: &mut Text<TEXT_ROOM>, fire: &CharringValues)
    requires room { length text.old + 152 ≤ text_room }
    ensures added { text.new ≡ text.old ++ char_lines fire.now.panel }
    ensures most { length text.new ≤ length text.old + 152 }
{
    for minute in [30, 60, 90, 120] {
        push_char(text, fire, minute);
    }
}

fn push_ratings(text: &mut Text<TEXT_ROOM>, ratings: &Ratings)
    requires { length text.old + 81 ≤ text_room }
    ensures { text.new ≡ text.old ++ rating_lines ratings.now.panel }
{
    let load = u32::from(ratings.load.number());
    let load_grade = u32::from(ratings.load_grade().minutes);
    let minutes = u32::from(minutes_in(ratings.seconds));
    let ei = u32::from(ratings.ei.number());
    let ei_grade = u32::from(ratings.ei_grade().minutes);
    let rei_grade = u32::from(ratings.rei_grade().minutes);
    text.push_line(b"R", &[load, load_grade]);
    text.push_time(b"RS", minutes, seconds_over(ratings.seconds));
    text.push_line(b"EI", &[ei, ei_grade]);
    text.push_line(b"REI", &[rei_grade]);
}

// The whole card.
pub(crate) fn text_of_card(accepted: Accepted) -> Text<TEXT_ROOM>
    ensures { result ≡ text_of_card accepted }
{
    let mut text = Text::new();
    text.push_line(b"CARD", &[u32::from(accepted.panel().version)]);
    push_chars(&mut text, &CharringValues::of(accepted.shown().panel()));
    push_ratings(&mut text, &Ratings::of(accepted));
    text
}
