// A setup whose rate is one that a leg may have: what T and round S are asked of.
ghost use Rattle.std.specs.Prelude.{◌≤◌, ◌≡◌};

use crate::Setup;
use timestamp::Rate;

#[derive(Clone, Copy)]
pub struct Rated {
    pub setup: Setup,
    pub ghost slow: { 8000 ≤ setup.rate },
    pub ghost fast: { setup.rate ≤ 96000 },
}

impl Rated {
    pub fn rate(self) -> Rate
        ensures { result.hertz ≡ self.setup.rate }
    {
        Rate {
            hertz: self.setup.rate,
        }
    }
}
