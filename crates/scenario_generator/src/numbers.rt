//! Numbers as they are drawn, one after another.

ghost use Rattle.std.specs.Prelude.{◌≡◌, ◌<◌};
ghost use Rattle.scenario_generator.specs.Numbers.{below, next};

const MULTIPLIER: u64 = 6_364_136_223_846_793_005;

const INCREMENT: u64 = 1_442_695_040_888_963_407;

/// The number that the next draw goes on from: a seed, or the last one.
#[derive(Clone, Copy)]
pub(crate) struct Numbers {
    pub(crate) last: u64,
}

impl Numbers {
    /// Draws a number below a bound.
    pub(crate) fn draw(&mut self, bound: u32) -> u32
        requires { 0 < bound }
        ensures drawn { result ≡ below bound (next self.old.last) }
        ensures small { result < bound }
        ensures after { self.new.last ≡ next self.old.last }
    {
        self.last = self.last.wrapping_mul(MULTIPLIER).wrapping_add(INCREMENT);
        ((self.last >> 33) % u64::from(bound)) as u32
    }
}
