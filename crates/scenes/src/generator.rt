// A small generator: a linear congruence modulo 2^32, of which each number is the upper half.
ghost use Rattle.std.specs.Prelude.{◌≡◌};
ghost use Rattle.scenes.specs.Generator.{next_of, drawn_of};

// The state behind the latest number; at first a seed.
#[derive(Clone, Copy)]
pub struct Generator<const FACTOR: u32, const STEP: u32> {
    pub state: u32,
}

impl<const FACTOR: u32, const STEP: u32> Generator<FACTOR, STEP> {
    // The next number.
    pub fn draw(&mut self) -> u16
        ensures state { self.new.state ≡ next_of FACTOR STEP self.old.state }
        ensures number { result ≡ drawn_of self.new.state }
    {
        self.state = self.state.wrapping_mul(FACTOR).wrapping_add(STEP);
        (self.state >> 16) as u16
    }
}
