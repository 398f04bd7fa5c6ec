// event_processor.rs: the queue of pending events, sixteen places and a count, by value. The Rust's
// channel is a call for each event, and its sequence number the place of submission: an event goes in
// after those of its time, so nothing is sorted. Every public function is total.
#![tactic(auto)]

ghost use Rattle.std.specs.Prelude.{◌≡◌, [], ◌∷◌, ◌++◌, ◌+◌, ◌≤◌, ◌<◌, take, drop};
ghost use Rattle.sampler_event.specs.Events.{blank_event};
ghost use Rattle.event_processor.specs.Queue.{insert, first_before, pending, empty_queue, entered, told, received, is_due, taken_before};

use laws::{Refusal, Refused};
use sampler_event::Event;
use timestamp::Timestamp;

// The first `count` places hold the events that wait, sorted by time, equal times by submission: document 01's
// "16-place array with a count", with no heap.
#[derive(Clone, Copy, Debug, PartialEq, Eq)]
pub struct Queue {
    pub events: [Event; 16],
    pub count: usize,
}

// The first event where it is due, and the queue without it.
#[derive(Clone, Copy, Debug, PartialEq, Eq)]
pub struct Taken {
    pub first: Option<Event>,
    pub queue: Queue,
}

// ---- the places, each with room for one: a clause, since a damaged leg's count is any, and `receive` has tested it

// The array with the event at k: those from k on move up by one, the last of them over what stood
// at n.
#[tactic(auto, using(crate::proofs::Moves::moved_up))]
fn moved_up(mut events: [Event; 16], k: usize, n: usize, event: Event) -> [Event; 16]
    requires k_bound { k ≤ n }
    requires room { n < 16 }
    ensures { result ≡ take k events ++ event ∷ drop k (take n events) ++ drop (n + 1) events }
{
    events.copy_within(k..n, k + 1);
    events[k] = event;
    events
}

// The array without its first, the rest moved down, a blank at the end.
#[tactic(auto, using(crate::proofs::Moves::moved_down))]
fn moved_down(mut events: [Event; 16]) -> [Event; 16]
    ensures { result ≡ drop 1 events ++ blank_event ∷ [] }
{
    events.copy_within(1.., 0);
    events[15] = Event::blank();
    events
}

// ---- event_processor.rs

impl Queue {
    pub fn empty() -> Queue
        ensures { result ≡ empty_queue }
    {
        Queue {
            events: [Event::blank(); 16],
            count: 0,
        }
    }

    // How many of the events that wait come before this one: those at the front that are not later.
    fn place(self, event: Event) -> usize
        requires { self.count < 16 }
        ensures bound { result ≤ self.count }
        ensures value { insert event (pending self) ≡ take result (pending self) ++ event ∷ drop result (pending self) }
    {
        self.events[..self.count]
            .iter()
            .position(|other| event.time.is_before(other.time))
            .unwrap_or(self.count)
    }

    // The queue with this one in its place.
    fn enter(self, event: Event) -> Queue
        requires { self.count < 16 }
        ensures { result ≡ entered event self }
    {
        let k = self.place(event);
        Queue {
            events: moved_up(self.events, k, self.count, event),
            count: self.count + 1,
        }
    }

    #[tactic(auto, unfolding(crate::specs::Queue::received))]
    pub fn receive(self, event: Event) -> Result<Queue, Refused<Queue>>
        ensures { told result ≡ received event self }
    {
        if event.should_clear_queue() {
            return Ok(Queue::empty().enter(event));
        }
        if 16 <= self.count {
            return Err(Refused {
                refusal: Refusal::QueueFull,
                kept: self,
            });
        }
        Ok(self.enter(event))
    }

    // Whether there is an event for next_event_before to take, with no queue copied.
    pub fn is_due(self, end: Timestamp) -> bool
        ensures { result ≡ is_due (first_before end.bits (pending self)) }
    {
        self.count > 0 && self.events[0].time.is_before(end)
    }

    #[tactic(auto, unfolding(crate::specs::Queue::taken_before))]
    pub fn next_event_before(self, end: Timestamp) -> Taken
        ensures { result ≡ taken_before end.bits self }
    {
        if !self.is_due(end) {
            return Taken {
                first: None,
                queue: self,
            };
        }
        Taken {
            first: Some(self.events[0]),
            queue: Queue {
                events: moved_down(self.events),
                count: self.count - 1,
            },
        }
    }
}
