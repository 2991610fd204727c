// What depends on the product that a panel is made of.
ghost use Rattle.std.specs.Prelude.{◌≡◌, ◌≤◌, ◌<◌, not};
ghost use Rattle.panel.specs.Lamellae.{lamellae, thickness};
ghost use Rattle.panel.specs.Products.{product_of, is_lvl, factor_of, thin_keeps, thin_rate, rate_of};

use crate::{Panel, Product};
use numbers::search::last_keeping;

// The rate of LVL of at least 20.0 mm, in hundredths of mm/min: what its record gives.
pub const LVL_RATE: u8 = 65;

// By the bond, whose number is kept as it is: a panel is plain data, whose raw numbers calls refuse.
pub fn product_of(bond: u8) -> Product
    ensures { result ≡ product_of bond }
{
    if bond == 2 {
        Product::Lvl
    } else {
        Product::Clt
    }
}

pub fn is_lvl(product: Product) -> bool
    ensures { result ≡ is_lvl product }
{
    matches!(product, Product::Lvl)
}

// k_fi in twentieths.
pub fn factor_of(product: Product) -> u64
    ensures { (result ≡ factor_of product) × (result ≤ 23) }
{
    match product {
        Product::Clt => 23,
        Product::Lvl => 22,
    }
}

// Whether n is too low a rate for an LVL panel thinner than 20.0 mm.
fn is_too_low(n: u64, h: u32) -> bool
    requires { (n < 100) × (h < 200) }
    ensures { result ≡ not (thin_keeps h n) }
{
    n * n * u64::from(h) < 65 * 65 * 200
}

// Of an LVL panel thinner than 20.0 mm: one more than the last rate that is too low.
fn thin_rate(h: u32) -> u64
    requires { h < 200 }
    ensures { (result ≡ thin_rate h) × (result ≤ 100) }
{
    last_keeping(100, |n| is_too_low(n, h)) + 1
}

// β in hundredths of mm/min. The thickness is that of all lamellae: who asks has it.
#[tactic(auto, unfolding(crate::specs::Products::rate_by))]
pub fn rate_of(p: Panel, thick: u32) -> u64
    requires { thick ≡ thickness (lamellae p) }
    ensures { (result ≡ rate_of p) × (result < 256) }
{
    if is_lvl(product_of(p.bond)) & (thick < 200) {
        thin_rate(thick)
    } else {
        u64::from(p.rate)
    }
}
