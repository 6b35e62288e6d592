// The numbers that an image is drawn from.
ghost use Rattle.std.specs.Prelude.{◌≡◌, ◌<◌};
ghost use Rattle.workload.specs.Draws.{step, draw as drawn};
ghost use Rattle.workload.specs.Operations.{register as register_of};

/// A state from which numbers are drawn.
#[derive(Clone, Copy, Debug, PartialEq, Eq)]
pub struct Draws {
    pub x: u32,
}

impl Draws {
    /// The next number, 0 to 65,535.
    #[tactic(auto, unfolding(crate::specs::Draws::step))]
    pub fn draw(&mut self) -> u32
        ensures number { result ≡ drawn 0 self.old.x }
        ensures range { result < 65536 }
        ensures state { self.new.x ≡ step self.old.x }
    {
        self.x = self.x.wrapping_mul(1664525).wrapping_add(1013904223);
        self.x / 65536
    }

    /// The number of a register that is drawn, 1 to 15.
    pub fn register(&mut self) -> u8
        ensures number { result ≡ register_of (drawn 0 self.old.x) }
        ensures range { result < 16 }
        ensures state { self.new.x ≡ step self.old.x }
    {
        1 + (self.draw() % 15) as u8
    }
}
