//! The numbers from which records are made.
ghost use Rattle.std.specs.Prelude.{◌≡◌, ◌+◌, ℕ};
ghost use Rattle.las_make.specs.Drawing.{DrawsNext, draws_at, draws_each, state_drawn};

const MULTIPLIER: u64 = 6_364_136_223_846_793_005;

const INCREMENT: u64 = 1_442_695_040_888_963_407;

/// The numbers that are drawn for a record, in this order: for its three coordinates, the intensity, the number of
/// returns, the return number, the class and the colours. If it has no colours, the last is not drawn, and is 0.
#[derive(Clone, Copy)]
pub(crate) struct Draws {
    pub(crate) x: u32,
    pub(crate) y: u32,
    pub(crate) z: u32,
    pub(crate) intensity: u32,
    pub(crate) returns: u32,
    pub(crate) number: u32,
    pub(crate) class: u32,
    pub(crate) colours: u32,
}

/// A generator of random numbers.
#[derive(Clone, Copy)]
pub(crate) struct Generator {
    state: u64,
}

impl Generator {
    pub(crate) fn new(seed: u32) -> Generator
        ensures { result.state ≡ state_drawn seed 0 }
    {
        Generator {
            state: u64::from(seed),
        }
    }

    // Draws the next number.
    #[inline(always)]
    fn draw(&mut self) -> u32
        ensures { DrawsNext self.old.state result self.new.state }
    {
        self.state = self.state.wrapping_mul(MULTIPLIER).wrapping_add(INCREMENT);
        (self.state >> 32) as u32
    }

    /// Draws the numbers of the next record.
    #[inline]
    pub(crate) fn draws(&mut self, format: u8) -> Draws
        ensures numbers { (seed n : ℕ) → self.old.state ≡ state_drawn seed n → result ≡ draws_at format seed n }
        ensures state { (seed n : ℕ) → self.old.state ≡ state_drawn seed n
            → self.new.state ≡ state_drawn seed (n + draws_each format) }
    {
        let x = self.draw();
        let y = self.draw();
        let z = self.draw();
        let intensity = self.draw();
        let returns = self.draw();
        let number = self.draw();
        let class = self.draw();
        let colours = if format >= 2 { self.draw() } else { 0 };
        Draws {
            x,
            y,
            z,
            intensity,
            returns,
            number,
            class,
            colours,
        }
    }
}
