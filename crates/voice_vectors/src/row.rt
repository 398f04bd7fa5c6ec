// A row of the list: an op, a place and eight words, in lower-case hex.

// What a row does: it sets entries, renders a piece, or holds what the Rust made of it.
#[derive(Clone, Copy, Debug, PartialEq, Eq)]
pub enum Op {
    Recording,
    Fade,
    Output,
    Render,
    Voice,
    Heard,
    Unknown,
}

impl From<u64> for Op {
    fn from(number: u64) -> Op {
        match number {
            0x40 => Op::Recording,
            0x41 => Op::Fade,
            0x42 => Op::Output,
            0x43 => Op::Render,
            0x44 => Op::Voice,
            0x45 => Op::Heard,
            _ => Op::Unknown,
        }
    }
}

#[derive(Clone, Copy, Debug, PartialEq, Eq)]
pub struct Row {
    pub op: Op,
    pub at: usize,
    pub words: [u32; 8],
}

impl From<&[u8; 78]> for Row {
    fn from(text: &[u8; 78]) -> Row {
        let mut words = [0; 8];
        for (i, word) in words.iter_mut().enumerate() {
            *word = (words::hex(text, 6 + 9 * i, 8) % 0x1_0000_0000) as u32;
        }
        Row {
            op: Op::from(words::hex(text, 0, 2)),
            at: words::hex(text, 3, 2) as usize,
            words,
        }
    }
}
