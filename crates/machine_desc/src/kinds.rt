// The kinds that a description has numbers for.
use operation::{LatKind, UnitKind};

/// All unit kinds, by number.
pub(crate) const UNIT_KINDS: [UnitKind; 5] = [
    UnitKind::I,
    UnitKind::M,
    UnitKind::L,
    UnitKind::P,
    UnitKind::B,
];

/// All latency kinds, by number.
pub(crate) const LATENCY_KINDS: [LatKind; 9] = [
    LatKind::Alu,
    LatKind::Mul,
    LatKind::Div,
    LatKind::Load,
    LatKind::Store,
    LatKind::Io,
    LatKind::Cmp,
    LatKind::Pbr,
    LatKind::Branch,
];
