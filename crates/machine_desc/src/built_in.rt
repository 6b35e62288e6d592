// The generations that are built in.
ghost use Rattle.std.specs.Prelude.{ℕ, List};
ghost use Rattle.machine_desc.specs.Description.{Description, IsDescription};
ghost use Rattle.machine_desc.specs.BuiltIn.{t1, t2, t3};
ghost use Rattle.machine_desc.specs.BuiltInRanges.{t1_in_range, t2_in_range, t3_in_range};

use super::{Generation, Mdes};
use operation::{LatKind, UnitKind};

/// A generation whose numbers are known when the program is built, with busy times of 1.
pub trait Fixed {
    ghost WIDTH: { ℕ };

    ghost UNITS: { List ℕ };

    ghost LATENCY: { List ℕ };

    /// How many operations may issue together.
    const WIDTH: u8;
    /// How many units of each kind there are, by the kinds' numbers.
    const UNITS: [u8; 5];
    /// In how many cycles an operation of each kind lands, by the kinds' numbers.
    const LATENCY: [u8; 9];
}

/// The built-in generation `t1`, two operations wide.
#[derive(Clone, Copy, Debug, PartialEq, Eq)]
pub struct T1;

impl Fixed for T1 {
    ghost WIDTH = { t1.width };

    ghost UNITS = { t1.units };

    ghost LATENCY = { t1.latencies };

    const WIDTH: u8 = 2;

    const UNITS: [u8; 5] = [1, 1, 1, 1, 1];

    const LATENCY: [u8; 9] = [1, 3, 8, 2, 1, 1, 1, 1, 1];
}

impl Generation for T1 {
    ghost description = { λ _. t1 };

    ghost in_range = { λ _. t1_in_range };

    fn width(&self) -> u8 {
        Self::WIDTH
    }

    fn units(&self, k: UnitKind) -> u8 {
        Self::UNITS[k as usize]
    }

    fn latency(&self, k: LatKind) -> u8 {
        Self::LATENCY[k as usize]
    }

    fn busy(&self, k: LatKind) -> u8 {
        [1; 9][k as usize]
    }
}

/// The built-in generation `t2`, four operations wide.
#[derive(Clone, Copy, Debug, PartialEq, Eq)]
pub struct T2;

impl Fixed for T2 {
    ghost WIDTH = { t2.width };

    ghost UNITS = { t2.units };

    ghost LATENCY = { t2.latencies };

    const WIDTH: u8 = 4;

    const UNITS: [u8; 5] = [2, 1, 1, 1, 1];

    const LATENCY: [u8; 9] = [1, 2, 12, 3, 1, 1, 1, 1, 2];
}

impl Generation for T2 {
    ghost description = { λ _. t2 };

    ghost in_range = { λ _. t2_in_range };

    fn width(&self) -> u8 {
        Self::WIDTH
    }

    fn units(&self, k: UnitKind) -> u8 {
        Self::UNITS[k as usize]
    }

    fn latency(&self, k: LatKind) -> u8 {
        Self::LATENCY[k as usize]
    }

    fn busy(&self, k: LatKind) -> u8 {
        [1; 9][k as usize]
    }
}

/// The built-in generation `t3`, eight operations wide.
#[derive(Clone, Copy, Debug, PartialEq, Eq)]
pub struct T3;

impl Fixed for T3 {
    ghost WIDTH = { t3.width };

    ghost UNITS = { t3.units };

    ghost LATENCY = { t3.latencies };

    const WIDTH: u8 = 8;

    const UNITS: [u8; 5] = [4, 2, 2, 2, 1];

    const LATENCY: [u8; 9] = [2, 4, 16, 5, 2, 2, 2, 1, 3];
}

impl Generation for T3 {
    ghost description = { λ _. t3 };

    ghost in_range = { λ _. t3_in_range };

    fn width(&self) -> u8 {
        Self::WIDTH
    }

    fn units(&self, k: UnitKind) -> u8 {
        Self::UNITS[k as usize]
    }

    fn latency(&self, k: LatKind) -> u8 {
        Self::LATENCY[k as usize]
    }

    fn busy(&self, k: LatKind) -> u8 {
        [1; 9][k as usize]
    }
}

/// A generation that was chosen as the program runs: a built-in one, or one whose description was given.
#[derive(Clone, Copy, Debug, PartialEq, Eq)]
pub enum Chosen {
    T1(T1),
    T2(T2),
    T3(T3),
    Given(Mdes),
}

impl Generation for Chosen {
    ghost use Rattle.machine_desc.specs.BuiltIn.{chosen};
    ghost use Rattle.machine_desc.specs.BuiltInRanges.{chosen_in_range};

    ghost description = { chosen };

    ghost in_range = { chosen_in_range };

    fn width(&self) -> u8 {
        match self {
            Chosen::T1(g) => g.width(),
            Chosen::T2(g) => g.width(),
            Chosen::T3(g) => g.width(),
            Chosen::Given(g) => g.width(),
        }
    }

    fn units(&self, k: UnitKind) -> u8 {
        match self {
            Chosen::T1(g) => g.units(k),
            Chosen::T2(g) => g.units(k),
            Chosen::T3(g) => g.units(k),
            Chosen::Given(g) => g.units(k),
        }
    }

    fn latency(&self, k: LatKind) -> u8 {
        match self {
            Chosen::T1(g) => g.latency(k),
            Chosen::T2(g) => g.latency(k),
            Chosen::T3(g) => g.latency(k),
            Chosen::Given(g) => g.latency(k),
        }
    }

    fn busy(&self, k: LatKind) -> u8 {
        match self {
            Chosen::T1(g) => g.busy(k),
            Chosen::T2(g) => g.busy(k),
            Chosen::T3(g) => g.busy(k),
            Chosen::Given(g) => g.busy(k),
        }
    }
}
