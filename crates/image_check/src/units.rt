// The units that an image needs.
ghost use Rattle.std.specs.Prelude.{◌≡◌, ◌↔◌, IsTrue, IsNone, IfSome};
ghost use Rattle.image_check.specs.Units.{IsUsedIn, IsUsed, IsLacking, IsFirstLacking, HasUnits, first_lacking};
ghost use Rattle.image_check.specs.UnitSearch.{IsUsedOn};

use super::accepted::Accepted;
use block_table::PAGE;
use latency_deps::{GoodBlock, GoodPage};
use machine_desc::Generation;
use operation::{UnitKind, unit};

/// Whether an operation of a block has the unit kind.
fn block_uses(block: &GoodBlock, kind: UnitKind) -> bool
    ensures { IsTrue result ↔ IsUsedIn block.now.words kind }
{
    for i in 0..block.count() {
        if unit(&block.op(i).op) == kind {
            return true;
        }
    }
    false
}

/// Whether an operation of a page's blocks has the unit kind.
fn page_uses(page: &GoodPage, kind: UnitKind) -> bool
    ensures { IsTrue result ↔ IsUsedOn page.now kind }
{
    for k in 0..page.blocks() {
        if block_uses(page.block(k), kind) {
            return true;
        }
    }
    false
}

/// Whether an operation of an image has the unit kind.
fn uses(a: &Accepted, kind: UnitKind) -> bool
    ensures { IsTrue result ↔ IsUsed a.now kind }
{
    let pages = (a.parts().words.len() / PAGE as usize) as u16;
    for n in 0..pages {
        if page_uses(a.page(n), kind) {
            return true;
        }
    }
    false
}

/// Whether an image uses a unit kind of which the generation has no unit. Only then are the operations looked at.
fn is_lacking<G: Generation>(a: &Accepted, g: &G, kind: UnitKind) -> bool
    ensures { IsTrue result ↔ IsLacking a.now (G.description g.now) kind }
{
    g.units(kind) == 0 && uses(a, kind)
}

/// The first unit kind, by the kinds' numbers, that an image uses and the generation lacks.
fn find_lacking<G: Generation>(a: &Accepted, g: &G) -> Option<UnitKind>
    ensures lacking { IfSome result (IsFirstLacking a.now (G.description g.now)) }
    ensures none { IsNone result ↔ HasUnits a.now (G.description g.now) }
{
    let kinds = [
        UnitKind::I,
        UnitKind::M,
        UnitKind::L,
        UnitKind::P,
        UnitKind::B,
    ];
    for kind in &kinds {
        if is_lacking(a, g, *kind) {
            return Some(*kind);
        }
    }
    None
}

/// The first unit kind, in the order `I`, `M`, `L`, `P`, `B`, that an image's operations use and of which the generation has
/// no unit. None exactly where the generation has the units that the image needs.
pub fn has_units<G: Generation>(a: &Accepted, g: &G) -> Option<UnitKind>
    ensures first { result ≡ first_lacking a.now (G.description g.now) }
    ensures lacking { IfSome result (IsFirstLacking a.now (G.description g.now)) }
    ensures none { IsNone result ↔ HasUnits a.now (G.description g.now) }
{
    find_lacking(a, g)
}
