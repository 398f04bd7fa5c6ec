// sampler_processor.rs: the leg by value: made, told, rendered.
#![tactic(auto)]

ghost use Rattle.std.specs.Prelude.{◌≡◌};
ghost use Rattle.sampler_processor.specs.Numbers.{sound};
ghost use Rattle.sampler_processor.specs.Calls.{fresh, make, submit, render, told, told_render};
ghost use Rattle.sampler_player.specs.Pieces.{lent_by};

use block::Block;
use event_processor::Queue;
use laws::{Refusal, Refused};
use numbers::Sizes;
use sampler_event::Limits;
use sampler_player::{Lent, Player, Setup};
use timestamp::Timestamp;

mod block;
mod numbers;
mod sound;

#[derive(Clone, Copy, Debug, PartialEq, Eq)]
pub struct Leg {
    pub setup: Setup,
    pub player: Player,
    pub queue: Queue,
}

// The leg after a block, and how many pieces it was rendered in.
#[derive(Clone, Copy, Debug, PartialEq, Eq)]
pub struct Rendered {
    pub leg: Leg,
    pub pieces: usize,
}

fn fresh(setup: Setup) -> Leg
    ensures { result ≡ fresh setup }
{
    Leg {
        setup,
        player: Player::quiet(),
        queue: Queue::empty(),
    }
}

impl Leg {
    // A fresh leg of these sizes, or 1, 2, 3, 4 in this order and the blank leg.
    pub fn make(
        rate: usize,
        channels: usize,
        frames: usize,
        fade: usize,
    ) -> Result<Leg, Refused<Leg>>
        ensures { told result ≡ make (record { rate = rate; channels = channels; frames = frames; fade = fade }) }
    {
        let asked = Setup {
            rate,
            channels,
            frames,
            fade,
        };
        let none = Setup {
            rate: 0,
            channels: 0,
            frames: 0,
            fade: 0,
        };
        match Sizes::try_from(asked) {
            Ok(_) => Ok(fresh(asked)),
            Err(refusal) => Err(Refused {
                refusal,
                kept: fresh(none),
            }),
        }
    }

    // Whether a leg is not damaged: number 14 tests it.
    pub fn sound(&self) -> bool
        ensures { result ≡ sound self.now }
    {
        let Ok(sizes) = Sizes::try_from(self.setup) else {
            return false;
        };
        sound::player_good(self.player, sizes) && sound::queue_good(&self.queue, sizes)
    }

    // A command record's event in the queue, or 14, 13, 10, 11, 12, 9 in this order and the leg as it was. A refusal has to
    // hand the leg back, so it is matched: with `?` in a function over the refusal alone a command took 8 percent longer.
    pub fn submit(self, bytes: &[u8]) -> Result<Leg, Refused<Leg>>
        ensures { told result ≡ submit self bytes.now }
    {
        if !self.sound() {
            return Err(Refused {
                refusal: Refusal::Damaged,
                kept: self,
            });
        }
        let limits = Limits {
            rate: self.setup.rate,
            fade: self.setup.fade,
        };
        let event = match sampler_event::command(bytes, limits) {
            Ok(event) => event,
            Err(refusal) => {
                return Err(Refused {
                    refusal,
                    kept: self,
                });
            }
        };
        match self.queue.receive(event) {
            Ok(queue) => Ok(Leg { queue, ..self }),
            Err(full) => Err(Refused {
                refusal: full.refusal,
                kept: self,
            }),
        }
    }

    // A block into the output, with its pieces, or 14, 4, 3, 2, 5, 7, 8, 6 in this order and the leg as it was.
    // A block of no frames has no event to take and nothing to play.
    pub fn render(
        self,
        lent: Lent,
        out: &mut [f32],
        start: Timestamp,
    ) -> Result<Rendered, Refused<Leg>>
        ensures { record { answer = told_render result; out = out.new } ≡ render self (lent_by lent.entry) out.old start.bits }
    {
        if let Err(refusal) = numbers::may_render(&self, lent, out, start) {
            return Err(Refused {
                refusal,
                kept: self,
            });
        }
        if lent.block == 0 {
            return Ok(Rendered {
                leg: self,
                pieces: 0,
            });
        }
        let block = Block {
            setup: self.setup,
            lent,
            start,
        };
        if block.any_due(&self.queue) {
            let end = block.run(self.player, self.queue, out);
            return Ok(Rendered {
                leg: Leg {
                    player: end.player,
                    queue: end.queue,
                    ..self
                },
                pieces: end.pieces,
            });
        }
        let played = block.whole(self.player, out);
        Ok(Rendered {
            leg: Leg {
                player: played.player,
                ..self
            },
            pieces: played.pieces,
        })
    }
}
