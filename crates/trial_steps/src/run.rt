// Step 4's blocks: each over zeros, each T(frames) after the one before.
ghost use Rattle.std.specs.Prelude.{◌≤◌, length};
ghost use Rattle.laws.proofs.NoNan.{Number};
ghost use Rattle.sampler_voice.proofs.NoNan.{Numbers};
ghost use Rattle.trial_steps.specs.Follows.{Follows};

use laws::Refusal;
use sampler_player::Lent;
use sampler_processor::Leg;
use timestamp::Timestamp;

// What a step asks of blocks: the first one's start, the frames of each, and how many there are or, of one, how many
// entries.
#[derive(Clone, Copy)]
pub struct Asked {
    pub start: Timestamp,
    pub frames: usize,
    pub count: usize,
}

// What refused the last block, if anything; the blocks rendered, their pieces, and the sum of their entries' bits.
#[derive(Clone, Copy)]
pub struct Blocks {
    pub refusal: Option<Refusal>,
    pub blocks: u64,
    pub pieces: u64,
    pub sum: u64,
}

// A number's bits. A call's result is known to be in its type's range, which bits_sum needs; `to_bits` in its place isn't.
fn bits(x: f32) -> u32
    requires { Number x }
{
    x.to_bits()
}

// The sum of the entries' bits; none is a NaN. In words of one width: the sum mod 2^32, and that of the upper halves,
// which together tell the sum of the lower ones. A sum of 64 bits takes half as long again: 164 ns, not 107, for 960.
fn bits_sum(entries: &[f32]) -> u64
    requires length_bound { length entries.now ≤ 65536 }
    requires numbers { Numbers entries.now }
{
    let mut all: u32 = 0;
    let mut high: u32 = 0;
    for x in entries {
        let word = bits(*x);
        all = all.wrapping_add(word);
        high += word / 65536;
    }
    let low = all.wrapping_sub(high % 65536 * 65536);
    u64::from(low) + 65536 * u64::from(high)
}

// T of a block at the leg's rate. A rate that has no T has a damaged leg, whose first block is refused.
fn block_time(rate: usize, block: usize) -> Timestamp {
    let zero = Timestamp::zero();
    zero.incremented_by_samples(block, rate).unwrap_or(zero)
}

pub fn run(lent: Lent, entries: &mut [f32], asked: Asked, leg: &mut Leg) -> Blocks
    requires { length entries.old ≤ 65536 }
    ensures { Follows leg.old 4 leg.new }
{
    let block = Lent {
        block: asked.frames,
        ..lent
    };
    let by = block_time(leg.setup.rate, asked.frames);
    let mut at = asked.start;
    let mut done = Blocks {
        refusal: None,
        blocks: 0,
        pieces: 0,
        sum: 0,
    };
    for _ in 0..asked.count {
        entries.fill(0.0);
        match leg.render(block, entries, at) {
            Ok(rendered) => {
                *leg = rendered.leg;
                done.blocks += 1;
                done.pieces = done.pieces.wrapping_add(rendered.pieces as u64);
                done.sum = done.sum.wrapping_add(bits_sum(entries));
            }
            Err(refused) => {
                *leg = refused.kept;
                done.refusal = Some(refused.refusal);
                break;
            }
        }
        // there is a sum: a block that starts past 2^48 is refused
        at = at.add(by).unwrap_or(Timestamp::zero());
    }
    done
}
