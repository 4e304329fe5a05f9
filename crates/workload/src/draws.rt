//! Numbers that look random.
ghost use Rattle.std.specs.Prelude.{◌≡◌, ◌<◌};
ghost use Rattle.workload.specs.Draws.{next, draw};

/// What the state is multiplied by at each step (D. E. Knuth, MMIX).
const MULTIPLIER: u64 = 6_364_136_223_846_793_005;

/// What is then added to it.
const INCREMENT: u64 = 1_442_695_040_888_963_407;

/// A source of numbers that look random: a linear congruential generator modulo 2^64.
#[derive(Drop)]
pub(crate) struct Draws {
    x: u64,
}

impl Draws {
    /// The source that begins at this state.
    pub(crate) fn new(seed: u64) -> Self
        ensures { result.x ≡ seed }
    {
        Draws { x: seed }
    }

    // Takes one step, and tells the state behind it.
    #[tactic(auto, unfolding(crate::specs::Draws::next))]
    fn step(&mut self) -> u64
        ensures value { result ≡ next self.old.x }
        ensures after { self.new.x ≡ next self.old.x }
    {
        self.x = self.x.wrapping_mul(MULTIPLIER).wrapping_add(INCREMENT);
        self.x
    }

    /// A number below `limit`, of the upper bits of the next state.
    #[tactic(auto, unfolding(crate::specs::Draws::draw))]
    pub(crate) fn draw(&mut self, limit: usize) -> usize
        requires { 0 < limit }
        ensures value { result ≡ draw limit self.old.x }
        ensures below { result < limit }
        ensures after { self.new.x ≡ next self.old.x }
    {
        (self.step() >> 33) as usize % limit
    }
}
