// The panel as the fire meets it, by the face that the fire is on.
ghost use Rattle.std.specs.Prelude.{◌≡◌, ◌-◌, ◌≤◌, ◌++◌, reverse, take, replicate};
ghost use Rattle.panel.specs.Faces.{turned, shown};

use crate::Panel;

// An array with its used places in reverse, and the others unused. The array and the count are kept as they are, since a panel holds both by
// value; there is no heap.
fn last_first<T: Copy>(places: [T; 9], count: usize, unused: T) -> [T; 9]
    requires { count ≤ 9 }
    ensures { result ≡ reverse (take count places) ++ replicate (9 - count) unused }
{
    let mut turned = [unused; 9];
    let used = &mut turned[..count];
    used.copy_from_slice(&places[..count]);
    used.reverse();
    turned
}

// The panel with its last face first. The count must be at most 9, which is kept as it is, as are the arrays: a panel is plain
// data, and one that calls have checked is turned by `Accepted` (limits).
pub fn turned(p: Panel) -> Panel
    requires { p.count ≤ 9 }
    ensures { result ≡ turned p }
{
    Panel {
        directions: last_first(p.directions, p.count, 0),
        thicknesses: last_first(p.thicknesses, p.count, 0),
        ..p
    }
}

// The panel whose depths and section are shown. The count must be at most 9. It and the face's number are kept as they are: see
// `turned`.
pub fn shown(p: Panel) -> Panel
    requires { p.count ≤ 9 }
    ensures { result ≡ shown p }
{
    if p.face == 1 { turned(p) } else { p }
}
