// The four steps.
ghost use Rattle.std.specs.Prelude.{◌≡◌, ◌≤◌, length, IfErr, IsNone, IsSome};
ghost use Rattle.buffered.specs.Input.{place, Filled};
ghost use Rattle.sampler_processor.specs.Calls.{leg_answer, told};
ghost use Rattle.trial_steps.specs.Follows.{Follows, Next, Taken};

use crate::run::{Asked, Blocks, run};
use buffered::{Reader, Writer};
use laws::Refused;
use sampler_player::Lent;
use sampler_processor::Leg;

// What a file has in the place of a trial or a step, and the byte at which that begins.
#[derive(Clone, Copy, Debug, PartialEq, Eq)]
pub enum Malformed {
    Trial(u64),
    Step(u64),
}

// What a trial's blocks are lent, how many channels their output has, and the leg as it stands.
#[derive(Clone, Copy)]
pub struct Trial<'a> {
    pub recording: &'a [f32],
    pub table: &'a [f32],
    pub channels: usize,
    pub leg: Leg,
}

// The next n bytes, where the file has them.
fn hold(reader: &mut Reader, n: usize) -> Option<()>
    ensures { Filled n reader.old.bytes reader.old.input reader.new.bytes reader.new.input }
{
    reader.fill(n);
    reader.holds(n).then_some(())
}

// The number of an answer, and the leg that it hands back.
pub fn numbered(answer: Result<Leg, Refused<Leg>>) -> (u8, Leg)
    ensures { leg_answer result.0 result.1 ≡ told answer }
{
    match answer {
        Ok(leg) => (0, leg),
        Err(refused) => (u8::from(refused.refusal), refused.kept),
    }
}

// `reader`, `writer` and `entries` go side by side: a struct of the three borrows would be made anew for each step.

// Each step leaves its leg where the one before it stood, and a call of its own: handed on as a value, or compiled into its
// caller, a Result's leg is copied word by word at each turn, and 16 commands take up to three times as long.

// ---- step 1

#[inline(never)]
fn command(reader: &mut Reader, writer: &mut Writer, leg: &mut Leg) -> Option<()>
    ensures ends { IsNone result → leg.new ≡ leg.old }
    ensures goes { IsSome result → Follows leg.old 1 leg.new }
{
    hold(reader, 3)?;
    let n = reader.count(1, 2);
    if 64 < n {
        return None;
    }
    hold(reader, n + 3)?;
    let number = match leg.submit(reader.part(3, n)) {
        Ok(next) => {
            *leg = next;
            0
        }
        Err(refused) => {
            *leg = refused.kept;
            u8::from(refused.refusal)
        }
    };
    reader.pass(n + 3);
    writer.put(1, u64::from(number));
    Some(())
}

// ---- step 2

// A step whose last bytes, so many, tell how many.
fn asked(reader: &mut Reader, last: usize) -> Option<Asked>
    requires { last ≤ 8 }
{
    hold(reader, 11 + last)?;
    let asked = Asked {
        start: reader.time(1),
        frames: reader.count(9, 2),
        count: reader.count(11, last),
    };
    reader.pass(11 + last);
    Some(asked)
}

// Over the entries that the output holds before.
fn block(
    reader: &mut Reader,
    writer: &mut Writer,
    entries: &mut [f32],
    lent: Lent,
    leg: &mut Leg,
) -> Option<()>
    ensures ends { IsNone result → leg.new ≡ leg.old }
    ensures goes { IsSome result → Follows leg.old 2 leg.new }
{
    let asked = asked(reader, 2)?;
    let entries = entries.get_mut(..asked.count)?;
    reader.read_floats(entries).then_some(())?;
    let block = Lent {
        block: asked.frames,
        ..lent
    };
    let (number, pieces) = match leg.render(block, entries, asked.start) {
        Ok(rendered) => {
            *leg = rendered.leg;
            (0, rendered.pieces)
        }
        Err(refused) => {
            *leg = refused.kept;
            (u8::from(refused.refusal), 0)
        }
    };
    writer.put(1, u64::from(number));
    writer.put(8, pieces as u64);
    writer.put_floats(entries);
    Some(())
}

// ---- step 3

#[inline(never)]
fn placed(reader: &mut Reader, writer: &mut Writer, leg: &mut Leg) -> Option<()>
    ensures ends { IsNone result → leg.new ≡ leg.old }
    ensures goes { IsSome result → Follows leg.old 3 leg.new }
{
    hold(reader, 491)?;
    *leg = leg_bytes::read(reader.part(1, 490)).ok()?;
    reader.pass(491);
    writer.put(1, 0);
    Some(())
}

// ---- step 4

// The output's entries. A count of channels that 2 refuses needs none.
fn entries_of(channels: usize, block: usize) -> usize
    requires { block ≤ 4096 }
    ensures { result ≤ 8192 }
{
    match channels {
        1 => block,
        2 => 2 * block,
        _ => 0,
    }
}

fn put_blocks(writer: &mut Writer, done: Blocks) {
    writer.put(1, u64::from(done.refusal.map_or(0, u8::from)));
    writer.put(8, done.blocks);
    writer.put(8, done.pieces);
    writer.put(8, done.sum);
}

fn blocks(
    reader: &mut Reader,
    writer: &mut Writer,
    entries: &mut [f32],
    lent: Lent,
    leg: &mut Leg,
) -> Option<()>
    ensures ends { IsNone result → leg.new ≡ leg.old }
    ensures goes { IsSome result → Follows leg.old 4 leg.new }
{
    let asked = asked(reader, 4)?;
    if 4096 < asked.frames {
        return None;
    }
    let n = entries_of(lent.channels, asked.frames);
    let done = run(lent, entries.get_mut(..n)?, asked, leg);
    put_blocks(writer, done);
    Some(())
}

// ---- any step

impl Trial<'_> {
    // The next step, which is answered but for the leg.
    fn next(&mut self, reader: &mut Reader, writer: &mut Writer, entries: &mut [f32]) -> Option<()>
        ensures ends { IsNone result → self.new.leg ≡ self.old.leg }
        ensures goes { IsSome result → Next reader.old.bytes reader.old.input self.old.leg self.new.leg }
        ensures lent_kept { (self.new.recording ≡ self.old.recording) × (self.new.table ≡ self.old.table) × (self.new.channels ≡ self.old.channels) }
    {
        hold(reader, 1)?;
        let lent = Lent {
            recording: self.recording,
            table: self.table,
            channels: self.channels,
            block: 0,
        };
        // The file has the step's number, and a match is plainest: each step reads on by itself.
        match reader.number(0, 1) {
            1 => command(reader, writer, &mut self.leg),
            2 => block(reader, writer, entries, lent, &mut self.leg),
            3 => placed(reader, writer, &mut self.leg),
            4 => blocks(reader, writer, entries, lent, &mut self.leg),
            _ => None,
        }
    }

    // The next step. One that is malformed leaves the leg.
    #[inline(never)]
    pub fn step(
        &mut self,
        reader: &mut Reader,
        writer: &mut Writer,
        entries: &mut [f32],
    ) -> Result<(), Malformed>
        ensures taken { Taken reader.old.bytes reader.old.input self.old.leg result self.new.leg }
        ensures lent_kept { (self.new.recording ≡ self.old.recording) × (self.new.table ≡ self.old.table) × (self.new.channels ≡ self.old.channels) }
        ensures place { IfErr result (λ e. e ≡ Malformed.Step (place reader.old.input)) }
    {
        let begins = reader.offset();
        let next = self.next(reader, writer, entries);
        next.ok_or(Malformed::Step(begins))?;
        writer.put_bytes(&leg_bytes::bytes_of(self.leg));
        Ok(())
    }
}
