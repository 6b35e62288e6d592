// What an operation reads and writes, as sets of places, so that two operations are compared at once.
ghost use Rattle.std.specs.Prelude.{◌≡◌, ◌<◌, IfSome};
ghost use Rattle.operation.specs.Places.{if_any, destinations as destinations_of};
ghost use Rattle.dependences.specs.Footprint.{place_number as number_of, only as only_place, set_of, read_places, role_at as role_of, same_role, written_as as places_written_as, footprint, is_stranger_to as are_strangers, feeds as is_fed, clashes as write_both};

use operation::places::{destinations, is_constant, sources};
use operation::{Family, Guarded, Op, Place, wired};

/// As what an operation writes a place.
#[derive(Clone, Copy, PartialEq, Eq)]
pub enum Role {
    /// A register, a target, or a predicate on which it isn't wired.
    Plain,
    /// A predicate on which it is wired in the family of ON and OC.
    One,
    /// A predicate on which it is wired in the family of AN and AC.
    Zero,
    /// The memory.
    Store,
}

/// Sets of places. In each the bit of a place's number stands for the place; r0 and p0 are in none.
#[derive(Clone, Copy)]
pub struct Footprint {
    /// What the operation reads.
    reads: u128,
    /// What it writes.
    writes: u128,
    /// What it writes in the role of this name.
    plain: u128,
    ones: u128,
    zeros: u128,
}

/// The number of a place: registers from 0 on, predicates from 32 on, targets from 64 on, and the memory.
pub(crate) fn place_number(place: Place) -> u8
    requires { number_of place < 128 }
    ensures { result ≡ number_of place }
{
    match place {
        Place::General(n) => n,
        Place::Predicate(n) => 32 + n,
        Place::Target(n) => 64 + n,
        Place::Memory => 72,
    }
}

/// The set of a place alone.
fn only(place: Place) -> u128
    requires { number_of place < 128 }
    ensures { result ≡ only_place place }
{
    if is_constant(place) {
        0
    } else {
        1 << place_number(place)
    }
}

/// The set of a place, where there is one.
fn if_there(place: Option<Place>) -> u128
    requires { IfSome place (λ x. number_of x < 128) }
    ensures { result ≡ set_of (if_any place) }
{
    match place {
        Some(place) => only(place),
        None => 0,
    }
}

/// What an operation reads.
fn read(g: &Guarded) -> u128
    ensures { result ≡ set_of (read_places g.now) }
{
    let from = sources(&g.op);
    only(Place::Predicate(g.guard))
        | if_there(from.first.map(|n| Place::General(n)))
        | if_there(from.second.map(|n| Place::General(n)))
        | if_there(from.target.map(|n| Place::Target(n)))
        | if_there(from.test.map(|n| Place::Predicate(n)))
        | if_there(from.memory.then_some(Place::Memory))
}

/// What an operation writes.
fn written(g: &Guarded) -> u128
    ensures { result ≡ set_of (destinations_of g.now.op) }
{
    let to = destinations(&g.op);
    if_there(to.first) | if_there(to.second)
}

/// As what an operation writes a place.
pub(crate) fn role_at(op: &Op, place: Place) -> Role
    ensures { result ≡ role_of op.now place }
{
    match place {
        Place::Predicate(p) => match wired(op, p) {
            Some(Family::One) => Role::One,
            Some(Family::Zero) => Role::Zero,
            None => Role::Plain,
        },
        Place::Memory => Role::Store,
        _ => Role::Plain,
    }
}

/// What an operation writes in a role.
fn written_as(g: &Guarded, role: Role) -> u128
    ensures { result ≡ set_of (places_written_as role g.now.op) }
{
    let to = destinations(&g.op);
    let is_in = |place: &Place| role_at(&g.op, *place) == role;
    if_there(to.first.filter(is_in)) | if_there(to.second.filter(is_in))
}

impl Footprint {
    /// What an operation reads and writes.
    pub fn of(g: &Guarded) -> Self
        ensures { result ≡ footprint g.now }
    {
        Footprint {
            reads: read(g),
            writes: written(g),
            plain: written_as(g, Role::Plain),
            ones: written_as(g, Role::One),
            zeros: written_as(g, Role::Zero),
        }
    }

    /// Whether neither reads or writes a place that the other one writes.
    pub fn is_stranger_to(&self, other: &Self) -> bool
        ensures { result ≡ are_strangers self.now other.now }
    {
        let common = self.writes & other.reads
            | self.writes & other.writes
            | self.reads & other.writes;
        common == 0
    }

    /// Whether it writes a place that the other one reads.
    pub fn feeds(&self, other: &Self) -> bool
        ensures { result ≡ is_fed self.now other.now }
    {
        self.writes & other.reads != 0
    }

    /// Whether both write a register, predicate or target, and aren't wired there in one family.
    pub fn clashes(&self, other: &Self) -> bool
        ensures { result ≡ write_both self.now other.now }
    {
        let apart = self.plain & other.writes
            | self.writes & other.plain
            | self.ones & other.zeros
            | self.zeros & other.ones;
        apart != 0
    }
}
