// "Numbers a call may answer": each rule of the leg, true where its number is given, and the order of
// making and of a render.
ghost use Rattle.std.specs.Prelude.{◌≡◌, true, ◌&&◌, not, [], ◌≤◌, ◌^◌, ltb, cond, IfOk};
ghost use Rattle.laws.specs.Rules.{number_of, number_in, first_broken};
ghost use Rattle.sampler_voice.specs.Voices.{is_stopped};
ghost use Rattle.sampler_player.specs.Sound.{any_far, far_bad};
ghost use Rattle.sampler_player.specs.Pieces.{lending, lent_by};
ghost use Rattle.sampler_processor.specs.Numbers.{channels_bad, recording_bad, table_bad, block_bad, entry_bad, output_bad, start_bad, sound, make_order, render_order};

use crate::Leg;
use laws::Refusal;
use sampler_event::Limits;
use sampler_player::{Lent, Player, Setup};
use sampler_voice::Voice;
use timestamp::{Rate, Timestamp};

// A rule: this refusal where it is broken.
fn rule(refusal: Refusal, broken: bool) -> Result<(), Refusal>
    ensures { number_in result ≡ cond broken (number_of refusal) 0 }
{
    if broken { Err(refusal) } else { Ok(()) }
}

// ---- the sizes that a leg keeps: 1, 2, 3, 4

fn channels_bad(channels: usize) -> bool
    ensures { result ≡ channels_bad channels }
{
    !matches!(channels, 1 | 2)
}

// The most frames of a recording, and of a fade.
const LONGEST_RECORDING: usize = 4194304;

const LONGEST_FADE: usize = 4800;

// The four numbers of a leg, each in its range.
#[derive(Clone, Copy)]
pub struct Sizes {
    pub setup: Setup,
    ghost slow: { 8000 ≤ setup.rate },
    ghost fast: { setup.rate ≤ 96000 },
    ghost one: { 1 ≤ setup.channels },
    ghost two: { setup.channels ≤ 2 },
    ghost short: { setup.frames ≤ 4194304 },
    ghost fade_bound: { setup.fade ≤ 4800 },
}

impl Sizes {
    // What they say of events.
    pub fn limits(self) -> Limits
        ensures { (result.rate ≡ self.setup.rate) × (result.fade ≡ self.setup.fade) }
    {
        Limits {
            rate: self.setup.rate,
            fade: self.setup.fade,
        }
    }
}

// "Making a leg: 1, 2, 3, 4".
impl TryFrom<Setup> for Sizes {
    type Error = Refusal;

    ghost try_from_gives = { λ asked answer. (number_in answer ≡ first_broken (make_order asked)) × IfOk answer (λ sizes. sizes.setup ≡ asked) };

    fn try_from(setup: Setup) -> Result<Sizes, Refusal> {
        Rate::try_from(setup.rate)?;
        rule(Refusal::Channels, channels_bad(setup.channels))?;
        rule(Refusal::Recording, LONGEST_RECORDING < setup.frames)?;
        rule(Refusal::FadeTable, LONGEST_FADE < setup.fade)?;
        Ok(Sizes { setup })
    }
}

// ---- what a render is lent: 4, 3, 5, 7, 6

fn table_bad(setup: Setup, table: &[f32]) -> bool
    ensures { result ≡ table_bad setup table.now }
{
    (LONGEST_FADE < table.len()) | (table.len() != setup.fade)
}

// The length is asked only of frames that are few enough for the product.
fn recording_bad(setup: Setup, recording: &[f32]) -> bool
    requires { setup.channels ≤ 2 }
    ensures { result ≡ recording_bad setup recording.now }
{
    LONGEST_RECORDING < setup.frames || recording.len() != setup.channels * setup.frames
}

// Rule 5 asks nothing of the recording and of the table.
fn block_bad(channels: usize, block: usize, out: &[f32]) -> bool
    requires { channels ≤ 2 }
    ensures { result ≡ block_bad (lending [] [] channels block) out.now }
{
    4096 < block || out.len() != channels * block
}

fn start_bad(start: Timestamp) -> bool
    ensures { result ≡ start_bad start.bits }
{
    !sampler_event::within(start, 0, 281474976710656)
}

fn entry_bad(x: f32) -> bool
    ensures { result ≡ entry_bad x }
{
    !((-65536.0 <= x) & (x <= 65536.0))
}

// No way out early, so that the loop is free of branches.
fn output_bad(out: &[f32]) -> bool
    ensures { result ≡ output_bad out.now }
{
    let mut bad = false;
    for x in out {
        bad |= entry_bad(*x);
    }
    bad
}

// ---- 8

fn voice_far(v: Voice) -> bool
    ensures { result ≡ not (is_stopped v.phase) && ltb (2 ^ 39) v.position }
{
    !v.is_stopped() & (549755813888 < v.position)
}

fn any_far(voices: [Voice; 2]) -> bool
    ensures { result ≡ any_far voices }
{
    let [v, w] = voices;
    voice_far(v) | voice_far(w)
}

fn far_bad(p: Player) -> bool
    ensures { result ≡ far_bad p }
{
    let last = Timestamp {
        bits: 281474976710656,
    };
    last.is_before(p.position) | any_far(p.voices)
}

// "Render: 14, 4, 3, 2, 5, 7, 8, 6". The leg is lent, so that it is not copied to be asked.
pub fn may_render(leg: &Leg, lent: Lent, out: &[f32], start: Timestamp) -> Result<(), Refusal>
    ensures { number_in result ≡ first_broken (render_order leg.now (lent_by lent.entry) out.now start.bits) }
{
    rule(Refusal::Damaged, !leg.sound())?;
    rule(Refusal::FadeTable, table_bad(leg.setup, lent.table))?;
    rule(Refusal::Recording, recording_bad(leg.setup, lent.recording))?;
    rule(Refusal::Channels, channels_bad(lent.channels))?;
    rule(Refusal::Block, block_bad(lent.channels, lent.block, out))?;
    rule(Refusal::BlockStart, start_bad(start))?;
    rule(Refusal::TooFar, far_bad(leg.player))?;
    rule(Refusal::Output, output_bad(out))
}
