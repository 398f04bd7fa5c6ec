// sampler_voice.rs: a voice of the sampler, and the two of a leg. A voice goes in by value and comes back.
// Recording and output are planar, channel 0's frames and then channel 1's, and each has its own number of
// channels. The output is n frames long; a piece of it is k frames from frame j on. These stay numbers: a piece is
// cut where a fade ends, and a struct of them would be built anew at each of five calls. `Room` of the output stays
// a clause, since `out` is lent anew at each, and so does p + k < 2^62: k is the piece's.
#![tactic(auto)]

ghost use Rattle.std.specs.Prelude.{◌≡◌, ◌+◌, ◌<◌, ◌≤◌, ◌^◌};
ghost use Rattle.sampler_voice.specs.Sound.{both_mixed, scaled};
ghost use Rattle.sampler_voice.specs.inner.Room.{Room, Ahead};
ghost use Rattle.sampler_voice.specs.Voices.{numbered, silent, is_stopped, started_at, ended_voice, lent, lent_all, frames, mix};

mod piece;
mod sound;

#[derive(Clone, Copy, Debug, PartialEq, Eq)]
pub enum Phase {
    Stopped,
    FadingIn(usize),
    Playing,
    FadingOut(usize),
}

impl Phase {
    // A phase by its number, as bytes, rows and C name it.
    pub fn numbered(number: u64, at: usize) -> Phase
        ensures { result ≡ numbered number at }
    {
        match number {
            1 => Phase::FadingIn(at),
            2 => Phase::Playing,
            3 => Phase::FadingOut(at),
            _ => Phase::Stopped,
        }
    }
}

#[derive(Clone, Copy, Debug, PartialEq, Eq)]
pub struct Voice {
    pub position: usize,
    pub phase: Phase,
}

// How many channels each side has.
#[derive(Clone, Copy, Debug, PartialEq, Eq)]
pub struct Channels {
    pub recording: usize,
    pub output: usize,
}

impl Channels {
    // The smaller count is mixed: whether it is 2.
    pub fn both(self) -> bool
        ensures { result ≡ both_mixed self }
    {
        self.recording.min(self.output) == 2
    }
}

// The two channel values of a frame.
#[derive(Clone, Copy, Debug, PartialEq)]
pub struct Pair {
    pub left: f32,
    pub right: f32,
}

impl Pair {
    pub fn scaled(self, g: f32) -> Pair
        ensures { result ≡ scaled g self }
    {
        Pair {
            left: g * self.left,
            right: g * self.right,
        }
    }
}

// What a voice is rendered from: a recording of so many frames, the fade's table, and each side's channels. It goes
// by value: behind a reference, what it holds would be read again in each turn of the loops.
#[derive(Clone, Copy)]
pub struct Source<'a> {
    pub recording: &'a [f32],
    pub frames: usize,
    pub fade: &'a [f32],
    pub channels: Channels,
    pub ghost room: { Room channels.recording frames recording.now },
}

impl Default for Voice {
    ghost is_default = { λ voice. voice ≡ silent };

    fn default() -> Voice {
        Voice {
            position: 0,
            phase: Phase::Stopped,
        }
    }
}

impl Voice {
    pub fn is_stopped(self) -> bool
        ensures { result ≡ is_stopped self.phase }
    {
        matches!(self.phase, Phase::Stopped)
    }

    pub fn start_from_position(self, position: usize) -> Voice
        ensures { result ≡ started_at position }
    {
        let phase = if position == 0 {
            Phase::Playing
        } else {
            Phase::FadingIn(0)
        };
        Voice { position, phase }
    }

    pub fn get_position(self) -> usize
        ensures { result ≡ self.position }
    {
        self.position
    }

    pub fn stop(self) -> Voice
        ensures { result ≡ ended_voice self }
    {
        match self.phase {
            Phase::FadingIn(_) | Phase::Playing => Voice {
                phase: Phase::FadingOut(0),
                ..self
            },
            Phase::Stopped | Phase::FadingOut(_) => self,
        }
    }

    // A piece: each phase has its own loops, so that none asks for the phase in every frame. With no frame to
    // render even a fade of length 0 stays as it is.
    pub fn render(self, out: &mut [f32], n: usize, j: usize, k: usize, source: Source) -> Voice
        requires output_room { Room source.channels.output n out.old }
        requires within_output { j + k ≤ n }
        requires position_bound { self.position + k < 2 ^ 62 }
        ensures { lent result out.new ≡ frames source.entry.recording.now source.entry.frames source.entry.fade.now n source.entry.channels j k (lent self out.old) }
    {
        if k == 0 {
            return self;
        }
        match self.phase {
            Phase::Stopped => self,
            Phase::FadingIn(i) => piece::render_in(out, n, j, k, source, self.position, i),
            Phase::Playing => {
                piece::add_frames(out, n, j, k, source, self.position, |_, pair| pair);
                Voice {
                    position: self.position + k,
                    ..self
                }
            }
            Phase::FadingOut(i) => piece::render_out(out, n, j, k, source, self.position, i),
        }
    }
}

// The voices of a leg.
#[derive(Clone, Copy, Debug, PartialEq, Eq)]
pub struct Voices {
    pub voices: [Voice; 2],
}

impl Voices {
    // Voice 0 over the whole piece, and then voice 1: the same sums in the same order as frame by frame. Where
    // neither sounds, nothing is copied.
    pub fn render(self, out: &mut [f32], n: usize, j: usize, k: usize, source: Source) -> Voices
        requires output_room { Room source.channels.output n out.old }
        requires within_output { j + k ≤ n }
        requires ahead { Ahead k self.voices }
        ensures { lent_all result.voices out.new ≡ mix source.entry.recording.now source.entry.frames source.entry.fade.now n source.entry.channels j k self.voices out.old }
    {
        let [v, w] = self.voices;
        if v.is_stopped() && w.is_stopped() {
            return self;
        }
        let a = v.render(out, n, j, k, source);
        let b = w.render(out, n, j, k, source);
        Voices { voices: [a, b] }
    }
}
