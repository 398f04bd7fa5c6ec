// A rate in range.
ghost use Rattle.std.specs.Prelude.{◌≤◌};

use laws::Refusal;

// Frames a second, 8,000 to 96,000: number 1 is for the others.
#[derive(Clone, Copy)]
pub struct Rate {
    pub hertz: usize,
    pub ghost slow: { 8000 ≤ hertz },
    pub ghost fast: { hertz ≤ 96000 },
}

impl TryFrom<usize> for Rate {
    ghost use Rattle.timestamp.specs.Answer.{RateOf};

    type Error = Refusal;

    ghost try_from_gives = { RateOf };

    fn try_from(hertz: usize) -> Result<Rate, Refusal> {
        if (8000 <= hertz) & (hertz <= 96000) {
            Ok(Rate { hertz })
        } else {
            Err(Refusal::Rate)
        }
    }
}
