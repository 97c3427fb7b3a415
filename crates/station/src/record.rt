// The station record. It is plain: whatever its bytes are, a label is read off them.
#[derive(Clone, Copy, PartialEq, Eq, Debug)]
pub enum Status {
    Judged,
    Down,
    Up,
    Bypass,
}

#[derive(Clone, Copy)]
pub struct Station {
    // room for the label: those bytes before the first that no label has, or all 24; no String, as a record has fixed memory
    pub label: [u8; 24],
    pub status: Status,
    pub up: u64,
    pub down: u64,
}
