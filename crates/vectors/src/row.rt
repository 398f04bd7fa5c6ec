// A row of the list, as it stands there, an op and an answer by their numbers: an op, three arguments, the answer's number and its result, in lower-case hex.

#[derive(Clone, Copy)]
pub struct Row {
    pub op: u64,
    pub a: u64,
    pub b: u64,
    pub c: u64,
    pub number: u64,
    pub result: u64,
}

pub fn row_of(text: &[u8; 74]) -> Row {
    Row {
        op: words::hex(text, 0, 2),
        a: words::hex(text, 3, 16),
        b: words::hex(text, 20, 16),
        c: words::hex(text, 37, 16),
        number: words::hex(text, 54, 2),
        result: words::hex(text, 57, 16),
    }
}
