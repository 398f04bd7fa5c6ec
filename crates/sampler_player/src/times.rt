// Times that are known to fit: sums, differences, and a time as a number of units. A sum and a difference are one operator
// each: `add` and `sub` would test again, and one function for both would take the operator.
ghost use Rattle.std.specs.Prelude.{◌≡◌, ◌<◌, ◌^◌, pos, ◌+ℤ◌, ◌-ℤ◌};
ghost use Rattle.std.specs.Int.{w64};
ghost use Rattle.std.proofs.Common.{SFits};
ghost use Rattle.sampler_player.specs.Clock.{not_negative};

use timestamp::Timestamp;

pub fn sum(a: Timestamp, b: Timestamp) -> Timestamp
    requires { SFits w64 (a.bits +ℤ b.bits) }
    ensures { result.bits ≡ a.bits +ℤ b.bits }
{
    Timestamp {
        bits: a.bits + b.bits,
    }
}

pub fn difference(a: Timestamp, b: Timestamp) -> Timestamp
    requires { SFits w64 (a.bits -ℤ b.bits) }
    ensures { result.bits ≡ a.bits -ℤ b.bits }
{
    Timestamp {
        bits: a.bits - b.bits,
    }
}

// Nothing for a negative time.
pub fn units(t: Timestamp) -> usize
    ensures { result ≡ not_negative t.bits }
{
    usize::try_from(t.bits).unwrap_or(0)
}

// std's try_from would test n once more: the callers have shown that it fits.
pub fn time_at(n: usize) -> Timestamp
    requires { n < 2 ^ 63 }
    ensures { result.bits ≡ pos n }
{
    Timestamp { bits: n as i64 }
}
