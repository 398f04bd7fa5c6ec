// What plays, of sampler_processor.rs: the voices, which of them is active, the loop points, and where
// the leg stands.
#![tactic(auto)]

ghost use Rattle.std.specs.Prelude.{◌≡◌, false, ◌≤◌, ◌^◌, nat_abs, ◌+ℤ◌};
ghost use Rattle.sampler_event.specs.Limits.{place_bad, positions_bad};
ghost use Rattle.sampler_player.specs.Clock.{clock_at};
ghost use Rattle.sampler_player.specs.Assign.{quiet, stop, begin, active_at, assign_at, assign};
ghost use Rattle.sampler_player.specs.Events.{begun, apply};

pub use rated::Rated;
use sampler_event::Kind;
use sampler_voice::Voice;
use times::sum;
use timestamp::{Timestamp, frame_near};

mod pieces;
mod rated;
mod times;
mod turns;

// The loop points: document 01 would have an enum of their own in the place of an `Option`.
#[derive(Clone, Copy, Debug, PartialEq, Eq)]
pub enum Points {
    Absent,
    Between(Timestamp, Timestamp),
}

// The four numbers that a leg is made from.
#[derive(Clone, Copy, Debug, PartialEq, Eq)]
pub struct Setup {
    pub rate: usize,
    pub channels: usize,
    pub frames: usize,
    pub fade: usize,
}

#[derive(Clone, Copy, Debug, PartialEq, Eq)]
pub struct Player {
    pub voices: [Voice; 2],
    pub active: Option<usize>,
    pub points: Points,
    pub position: Timestamp,
    pub start: Timestamp,
    pub completed: usize,
}

// What a render is lent: the recording, the fade table, how many channels the output has, and how many
// frames the block has.
#[derive(Clone, Copy)]
pub struct Lent<'a> {
    pub recording: &'a [f32],
    pub table: &'a [f32],
    pub channels: usize,
    pub block: usize,
}

// What a segment leaves, and how many pieces it rendered.
// A leg's `Rendered` is alike: one type for both, with a parameter, would name neither.
#[derive(Clone, Copy, Debug, PartialEq, Eq)]
pub struct Played {
    pub player: Player,
    pub pieces: usize,
}

impl Player {
    pub fn quiet() -> Player
        ensures { result ≡ quiet }
    {
        Player {
            voices: [Voice::default(); 2],
            active: None,
            points: Points::Absent,
            position: Timestamp::zero(),
            start: Timestamp::zero(),
            completed: 0,
        }
    }

    // What an event does; delay is the current time less the event's. It asks less of the rate than a Rate has,
    // so the rate stays a number. A time within 2^49, here, in `start` and in `Turns::due`, is a difference of two times that the
    // block has worked out: a type for it would be made to be taken apart at once.
    #[tactic(auto, unfolding(crate::specs::Events::apply))]
    pub fn apply(self, kind: Kind, delay: Timestamp, rate: usize) -> Player
        requires fast { rate ≤ 96000 }
        requires positions_good { positions_bad kind ≡ false }
        requires delay_bound { nat_abs delay.bits ≤ 2 ^ 49 }
        ensures { result ≡ apply rate kind delay.bits self }
    {
        match kind {
            Kind::StartImmediate => self.start(Timestamp::zero(), Timestamp::zero(), rate),
            Kind::Start(position) => self.start(position, delay, rate),
            Kind::Stop => self.stop(),
            Kind::EnableLoop(from, end) => Player {
                points: Points::Between(from, end),
                ..self
            },
            Kind::CancelLoop => Player {
                points: Points::Absent,
                ..self
            },
            Kind::CancelAll => Player {
                points: Points::Absent,
                ..self.stop()
            },
        }
    }

    // The active voice is at v. A number that names no voice stands at 0.
    fn active_at(self, v: usize) -> bool
        ensures { result ≡ active_at self.active v self.voices }
    {
        match self.active {
            None => false,
            Some(i) => self.voices.get(i).map_or(0, |voice| voice.get_position()) == v,
        }
    }

    // The first stopped voice starts at v and is active.
    fn begin(self, v: usize) -> Player
        ensures { result ≡ begin v self }
    {
        let active = self.voices.iter().position(|voice| voice.is_stopped());
        let mut voices = self.voices;
        if let Some(i) = active {
            voices[i] = voices[i].start_from_position(v);
        }
        Player {
            voices,
            active,
            ..self
        }
    }

    // v is the frame nearest to the time that the voice is assigned at.
    #[tactic(auto, unfolding(crate::specs::Assign::assign_at))]
    pub fn assign_voice(self, v: usize) -> Player
        ensures { result ≡ assign_at v self }
    {
        if self.active_at(v) {
            return self;
        }
        self.stop().begin(v)
    }

    fn start(self, from: Timestamp, delay: Timestamp, rate: usize) -> Player
        requires fast { rate ≤ 96000 }
        requires from_good { place_bad from.bits ≡ false }
        requires delay_bound { nat_abs delay.bits ≤ 2 ^ 49 }
        ensures { result ≡ begun from delay.bits (assign (clock_at rate) (from.bits +ℤ delay.bits) self) }
    {
        Player {
            position: delay,
            start: from,
            completed: 0,
            ..self.assign_voice(frame_near(sum(from, delay), rate))
        }
    }

    pub fn stop(self) -> Player
        ensures { result ≡ stop self }
    {
        Player {
            voices: self.voices.map(|voice| voice.stop()),
            active: None,
            ..self
        }
    }
}
