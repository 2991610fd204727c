// A panel that no line of the table refuses: what every call works on once it has checked its panel.
ghost use Rattle.std.specs.Prelude.{◌≡◌, ℕ};
ghost use Rattle.panel.specs.declared.Panel.{Panel};
ghost use Rattle.panel.specs.Faces.{turned, shown, fires, least_of};
ghost use Rattle.refusals.specs.Numbers.{by_number};
ghost use Rattle.refusals.specs.Lines.{refusal, unless_refused};
ghost use Rattle.refusals.specs.Refusals.{table_lines, panel_refusal};
ghost use Rattle.limits.specs.Keeps.{Keeps};
ghost use Rattle.limits.specs.Answers.{accepted_answer};

use panel::{Panel, faces};
use refusals::refusal::Refusal;
use refusals::table::check_table;
use refusals::{ByteFaults, NO_BYTES};
use std::marker::Model;

// In clauses it is the panel.
#[derive(Clone, Copy)]
pub struct Accepted {
    panel: Panel,
}

impl Model for Accepted {
    ghost use Rattle.panel.specs.declared.Panel.{Panel};

    ghost Value = { Panel };

    ghost use Rattle.std.specs.Prelude.{◌≡◌};
    ghost use Rattle.refusals.specs.Refusals.{panel_refusal};

    ghost view = { λ a. a.panel };

    ghost invariant = { λ a. panel_refusal a.panel ≡ 0 };

    ghost inverse = { λ p. record { panel = p } };
}

impl Accepted {
    // A panel that stands in bytes: the panel, or the first line that fits. What the bytes say and the panel are kept as they are, two
    // parameters: a struct of both would be made for this call and taken apart in it.
    pub fn in_bytes(f: ByteFaults, p: Panel) -> Result<Accepted, Refusal>
        ensures { by_number result ≡ unless_refused (refusal (table_lines f p)) p }
    {
        check_table(f, p)?;
        Ok(Accepted { panel: p })
    }

    // A panel of which it is known. No line may refuse it.
    pub fn known(p: Panel) -> Accepted
        requires { panel_refusal p ≡ 0 }
        ensures { result ≡ p }
    {
        Accepted { panel: p }
    }

    // A panel alone.
    pub fn of(p: Panel) -> Result<Accepted, Refusal>
        ensures { by_number result ≡ accepted_answer p }
    {
        Accepted::in_bytes(NO_BYTES, p)
    }

    pub fn panel(self) -> Panel
        ensures panel { result ≡ self }
        ensures accepted { panel_refusal result ≡ 0 }
        ensures keeps { Keeps result }
    {
        self.panel
    }

    // The panel with its last face first. `turned` and `shown` are kept as they are: each is one call of
    // `faces`, which a function over both would be handed.
    pub fn turned(self) -> Accepted
        ensures { result ≡ turned self }
    {
        Accepted {
            panel: faces::turned(self.panel),
        }
    }

    // The panel whose depths and section are shown. It stays as it is beside `turned`.
    pub fn shown(self) -> Accepted
        ensures { result ≡ shown self }
    {
        Accepted {
            panel: faces::shown(self.panel),
        }
    }

    // The lesser of what is worked out of each fire, given as the panel that has it on its first face. It must be worked out
    // of every accepted panel. The u32, which holds sums and seconds, is kept as it is: the definitions are numbers, and the least of a type
    // parameter would be by an order of its own. The face is kept as it is, a raw number of the panel.
    pub fn least_of_fires<F: Fn(Accepted) -> u32>(self, of: F) -> u32
        requires { (p : Panel) → panel_refusal p ≡ 0 → F.pre of p }
        ensures least { (f : Panel → ℕ) → ((p : Panel) (n : ℕ) → F.post of p n → n ≡ f p) → result ≡ least_of f (fires self) }
        ensures accepted { panel_refusal self ≡ 0 }
    {
        let first = of(self.shown());
        if self.panel.face < 2 {
            return first;
        }
        first.min(of(self.turned()))
    }
}
