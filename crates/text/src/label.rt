// Label columns: the bytes that a field means, as many as are needed to tell whether they are a label.
ghost use Rattle.std.specs.Prelude.{◌≡◌, ◌==◌, List, ℕ, [], ◌∷◌, ◌++◌};
ghost use Rattle.text.specs.Contents.{halved};
ghost use Rattle.text.specs.LabelColumns.{held, held_bytes};

const ROOM: usize = 25;

// The first 25 bytes of a label column, one more than a label can have, with zeros behind them; no String, as nothing is allocated here.
#[derive(Clone, Copy)]
pub struct LabelColumn {
    bytes: [u8; 25],
    len: usize,
}

// Whether the byte is a quote, of which a quoted field has two for each one that it means.
fn is_quote(byte: u8) -> bool
    ensures { result ≡ (byte == 34) }
{
    byte == b'"'
}

impl LabelColumn {
    fn empty() -> LabelColumn
        ensures { result ≡ held [] }
    {
        LabelColumn {
            bytes: [0; ROOM],
            len: 0,
        }
    }

    // The bytes as they are.
    pub(crate) fn of(bytes: &[u8]) -> LabelColumn
        ensures { result ≡ held bytes.now }
    {
        let len = bytes.len().min(ROOM);
        let mut room = [0; ROOM];
        room[..len].copy_from_slice(&bytes[..len]);
        LabelColumn { bytes: room, len }
    }

    // One byte more, where there is room.
    #[tactic(auto, using(crate::proofs::Holding::held_push, crate::proofs::Holding::held_full))]
    fn push(&mut self, byte: u8)
        ensures { (v : List ℕ) → self.old ≡ held v → self.new ≡ held (v ++ byte ∷ []) }
    {
        if self.len < ROOM {
            self.bytes[self.len] = byte;
            self.len += 1;
        }
    }

    // The bytes with each doubled quote as one.
    #[tactic(auto, using(crate::proofs::Holding::halving_begun, crate::proofs::Holding::halving_skips, crate::proofs::Holding::halving_takes, crate::proofs::Holding::halving_ended))]
    pub(crate) fn of_halved(bytes: &[u8]) -> LabelColumn
        ensures { result ≡ held (halved bytes.now) }
    {
        let mut column = LabelColumn::empty();
        let mut is_second = false;
        for &byte in bytes {
            if is_second {
                is_second = false;
            } else {
                column.push(byte);
                is_second = is_quote(byte);
            }
        }
        column
    }

    // The bytes that are kept: the first 25 of the column, or all.
    pub fn bytes(&self) -> &[u8]
        ensures { result.now ≡ held_bytes self.now }
    {
        &self.bytes[..self.len.min(ROOM)]
    }
}
