// "One block", the Rust's process_audio: the events that are due, each at its frame, and the frames
// between them.
ghost use Rattle.std.specs.Prelude.{◌≡◌, true, false, ◌+◌, ◌-◌, ◌*◌, ◌≤◌, ◌<◌, ◌^◌, T, length, pos, neg_ℤ, ◌+ℤ◌, ◌-ℤ◌};
ghost use Rattle.timestamp.specs.Time.{time_of, later};
ghost use Rattle.laws.specs.Rules.{within};
ghost use Rattle.sampler_event.specs.Limits.{positions_bad};
ghost use Rattle.event_processor.specs.Queue.{pending, first_before, is_due};
ghost use Rattle.sampler_player.specs.Clock.{clock_at};
ghost use Rattle.sampler_player.specs.Pieces.{lent_by, segment, left_by};
ghost use Rattle.sampler_player.specs.inner.Kept.{kept};
ghost use Rattle.sampler_player.specs.inner.Lending.{starting, ending};
ghost use Rattle.sampler_processor.specs.Numbers.{queue_good};
ghost use Rattle.sampler_processor.specs.Block.{frame_of, opening, up_to, past, block as block_of};
ghost use Rattle.sampler_processor.specs.inner.Stands.{Lends, running, applied_to, Reaches, left_of};

use event_processor::{Queue, Taken};
use sampler_event::Event;
use sampler_player::{Lent, Played, Player, Setup};
use timestamp::{Rate, Timestamp};

// A block of a leg of these sizes, that fits what it is lent: what is lent, and the time it starts at. The output
// is beside it, with its length in clauses: a struct that holds it can't be lent on where it came by value, and behind a
// `&mut` it would say again what `lent` has.
#[derive(Clone, Copy)]
pub struct Block<'a> {
    pub setup: Setup,
    pub lent: Lent<'a>,
    pub start: Timestamp,
    ghost lends: { Lends setup (lent_by lent) },
    ghost soon: { T (within (pos 0) (pos (2 ^ 48)) start.bits) },
}

// Where a block stands: what plays, the frames rendered, the current time, the pieces so far. That the time and what
// plays are within their limits stays in clauses: one step alone does not keep it, the events of the block do.
#[derive(Clone, Copy)]
pub struct Stand {
    pub player: Player,
    pub done: usize,
    pub now: Timestamp,
    pub pieces: usize,
}

// What a block leaves.
#[derive(Clone, Copy)]
pub struct BlockEnd {
    pub player: Player,
    pub queue: Queue,
    pub pieces: usize,
}

impl Block<'_> {
    // A time n frames later.
    fn frames_later(self, t: Timestamp, n: usize) -> Timestamp
        requires n_bound { n ≤ 4096 }
        requires t_within { T (within (pos 0) (pos (2 ^ 49)) t.bits) }
        ensures { result.bits ≡ t.bits +ℤ time_of self.entry.setup.rate n }
    {
        let rate = Rate {
            hertz: self.setup.rate,
        };
        t.add(timestamp::time_of(n, rate)).unwrap()
    }

    // Whether an event is due in the block. Its end is worked out only where one waits.
    pub fn any_due(self, queue: &Queue) -> bool
        ensures { result ≡ is_due (first_before (self.entry.start.bits +ℤ time_of self.entry.setup.rate self.entry.lent.block) (pending queue.now)) }
    {
        queue.count != 0 && queue.is_due(self.frames_later(self.start, self.lent.block))
    }

    // The frame of an event: the floor of S, from the block's start to the later of its time and now.
    fn event_frame(self, now: Timestamp, time: Timestamp) -> usize
        requires now_within { T (within (pos 0) (pos (2 ^ 49)) now.bits) }
        requires time_within { T (within (pos 0) (pos (2 ^ 49)) time.bits) }
        ensures { result ≡ frame_of self.entry.setup.rate self.entry.start.bits now.bits time.bits }
    {
        let at = if time.is_before(now) { now } else { time };
        timestamp::frame_at(at.sub(self.start).unwrap(), self.setup.rate)
    }

    // The whole block as one segment.
    pub fn whole(self, player: Player, out: &mut [f32]) -> Played
        requires fits { length out.old ≡ self.lent.channels * self.lent.block }
        requires player_kept { kept self.setup self.lent.block player ≡ true }
        ensures { ending result.player out.new result.pieces ≡ left_by (segment (clock_at self.entry.setup.rate) self.entry.setup (lent_by self.entry.lent) (starting player out.old 0 self.entry.lent.block)) }
    {
        player.play_segment(self.setup, self.lent, out, 0, self.lent.block)
    }

    // The frames up to this one, and the current time grown by T of them.
    fn up_to(self, at: Stand, frame: usize, out: &mut [f32]) -> Stand
        requires fits { length out.old ≡ self.lent.channels * self.lent.block }
        requires not_past { at.done ≤ frame }
        requires within_block { frame ≤ self.lent.block }
        requires player_kept { kept self.setup (self.lent.block - at.done) at.player ≡ true }
        requires now_within { T (within (pos 0) (pos (2 ^ 49)) at.now.bits) }
        requires pieces_bound { at.pieces ≤ 2 ^ 32 }
        ensures { running result out.new ≡ up_to self.entry.setup (lent_by self.entry.lent) self.entry.start.bits frame (running at out.old) }
    {
        let n = frame - at.done;
        let played = at
            .player
            .play_segment(self.setup, self.lent, out, at.done, n);
        Stand {
            player: played.player,
            done: frame,
            now: self.frames_later(at.now, n),
            pieces: at.pieces + played.pieces,
        }
    }

    // An event, applied where the block stands.
    fn applied_to(self, at: Stand, event: Event) -> Stand
        requires positions_good { positions_bad event.kind ≡ false }
        requires delay_within { T (within (neg_ℤ (pos (2 ^ 20))) (pos (2 ^ 49)) (at.now.bits -ℤ event.time.bits)) }
        ensures { result ≡ applied_to self.entry.setup.rate event at }
    {
        let delay = at.now.sub(event.time).unwrap();
        Stand {
            player: at.player.apply(event.kind, delay, self.setup.rate),
            ..at
        }
    }

    // One event that is due: the frames up to its own, and then the event.
    fn past_event(self, at: Stand, event: Event, out: &mut [f32]) -> Stand
        requires fits { length out.old ≡ self.lent.channels * self.lent.block }
        requires reaches { Reaches self.setup (lent_by self.lent) self.start.bits event (running at out.old) }
        ensures { running result out.new ≡ past self.entry.setup (lent_by self.entry.lent) self.entry.start.bits event (running at out.old) }
    {
        let frame = self.event_frame(at.now, event.time);
        let reached = self.up_to(at, frame, out);
        self.applied_to(reached, event)
    }

    // The block: each event below its end, at its frame, and then the frames that are left.
    pub fn run(self, player: Player, queue: Queue, out: &mut [f32]) -> BlockEnd
        requires fits { length out.old ≡ self.lent.channels * self.lent.block }
        requires some_frames { 0 < self.lent.block }
        requires player_kept { kept self.setup self.lent.block player ≡ true }
        requires queue_sound { queue_good self.setup queue ≡ true }
        ensures { record { end = result; out = out.new } ≡ left_of (block_of self.entry.setup (lent_by self.entry.lent) self.entry.start.bits (pending queue) queue (opening player out.old self.entry.start.bits)) }
    {
        let end = self.frames_later(self.start, self.lent.block);
        let mut at = Stand {
            player,
            done: 0,
            now: self.start,
            pieces: 0,
        };
        let mut waiting = queue;
        // An event below the end has its frame in the block, so frames remain while one is due.
        while let Taken {
            first: Some(event),
            queue: rest,
        } = waiting.next_event_before(end)
        {
            at = self.past_event(at, event, out);
            waiting = rest;
        }
        let last = self.up_to(at, self.lent.block, out);
        BlockEnd {
            player: last.player,
            queue: waiting,
            pieces: last.pieces,
        }
    }
}
