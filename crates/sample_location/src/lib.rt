// sample_location.rs: a place in an audio buffer, by channel and frame, and a rectangle of such places.
// Every function is total: where the Rust's sum would overflow, the answer is an `Err` of document 01's number 15.
#![tactic(auto)]

ghost use Rattle.std.specs.Prelude.{◌≡◌};
ghost use Rattle.sample_location.specs.Location.{told, told_range, place, moved_frames, moved_channels, rectangle, range_from};

use laws::Refusal;

// The Rust's `std::ops::Range<usize>`: start is in it, end is not. Of our own, since std's is not Copy.
#[derive(Clone, Copy, Debug, PartialEq, Eq)]
pub struct Range {
    pub start: usize,
    pub end: usize,
}

// What has a channel's and a frame's form has rawdio's two names, each with its promise: one generic function would be no
// plainer than the two lines.

// One rule for channels and frames: count of them, from start on.
fn range_from(start: usize, count: usize) -> Result<Range, Refusal>
    ensures { told_range result ≡ range_from start count }
{
    let end = start.checked_add(count).ok_or(Refusal::NoResult)?;
    Ok(Range { start, end })
}

// ---- sample_location.rs

#[derive(Clone, Copy, Debug, PartialEq, Eq)]
pub struct SampleLocation {
    pub channel: usize,
    pub frame: usize,
}

impl SampleLocation {
    pub fn new(channel: usize, frame: usize) -> SampleLocation
        ensures { result ≡ place channel frame }
    {
        SampleLocation { channel, frame }
    }

    pub fn channel(channel: usize) -> SampleLocation
        ensures { result ≡ place channel 0 }
    {
        SampleLocation { channel, frame: 0 }
    }

    pub fn frame(frame: usize) -> SampleLocation
        ensures { result ≡ place 0 frame }
    {
        SampleLocation { channel: 0, frame }
    }

    pub fn offset_frames(self, frame_offset: usize) -> Result<SampleLocation, Refusal>
        ensures { told result ≡ moved_frames self frame_offset }
    {
        let moved = range_from(self.frame, frame_offset)?;
        Ok(self.with_frame(moved.end))
    }

    pub fn offset_channels(self, channel_offset: usize) -> Result<SampleLocation, Refusal>
        ensures { told result ≡ moved_channels self channel_offset }
    {
        let moved = range_from(self.channel, channel_offset)?;
        Ok(self.with_channel(moved.end))
    }

    pub fn with_channel(self, channel: usize) -> SampleLocation
        ensures { result ≡ place channel self.frame }
    {
        SampleLocation { channel, ..self }
    }

    pub fn with_frame(self, frame: usize) -> SampleLocation
        ensures { result ≡ place self.channel frame }
    {
        SampleLocation { frame, ..self }
    }

    pub fn origin() -> SampleLocation
        ensures { result ≡ place 0 0 }
    {
        SampleLocation {
            channel: 0,
            frame: 0,
        }
    }
}

#[derive(Clone, Copy, Debug, PartialEq, Eq)]
pub struct SampleRange {
    pub channel: usize,
    pub frame: usize,
    pub channel_count: usize,
    pub frame_count: usize,
}

impl SampleRange {
    pub fn new(
        channel: usize,
        frame: usize,
        channel_count: usize,
        frame_count: usize,
    ) -> SampleRange
        ensures { result ≡ rectangle channel frame channel_count frame_count }
    {
        SampleRange {
            channel,
            frame,
            channel_count,
            frame_count,
        }
    }

    pub fn channel_and_frame_count(channel_count: usize, frame_count: usize) -> SampleRange
        ensures { result ≡ rectangle 0 0 channel_count frame_count }
    {
        SampleRange {
            channel: 0,
            frame: 0,
            channel_count,
            frame_count,
        }
    }

    pub fn channel_range(self) -> Result<Range, Refusal>
        ensures { told_range result ≡ range_from self.channel self.channel_count }
    {
        range_from(self.channel, self.channel_count)
    }

    pub fn frame_range(self) -> Result<Range, Refusal>
        ensures { told_range result ≡ range_from self.frame self.frame_count }
    {
        range_from(self.frame, self.frame_count)
    }
}
