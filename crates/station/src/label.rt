// Labels: 0 to 24 bytes, each from 20 to 7E hexadecimal.
ghost use Rattle.std.specs.Prelude.{◌≡◌, ◌≤◌, true, length, IfOk};
ghost use Rattle.std.specs.List.{list_all};
ghost use Rattle.refusal.specs.Refusals.{by_number, answered};
ghost use Rattle.station.specs.Labels.{printable, legal, label_refusal, padded, label_of, station_with};

use crate::record::{Station, Status};
use refusal::Refusal;

const ROOM: usize = 24;

// Whether a label may have the byte.
fn is_printable(byte: u8) -> bool
    ensures { result ≡ printable byte }
{
    matches!(byte, 0x20..=0x7e)
}

// The bytes before the first that no label has.
fn label_in(bytes: &[u8]) -> &[u8]
    ensures { result.now ≡ label_of bytes.now }
{
    let end = bytes
        .iter()
        .position(|&byte| !is_printable(byte))
        .unwrap_or(bytes.len());
    &bytes[..end]
}

fn all_printable(bytes: &[u8]) -> bool
    ensures { result ≡ list_all printable bytes.now }
{
    bytes.iter().all(|&byte| is_printable(byte))
}

// Whether the bytes are a label.
fn is_legal(bytes: &[u8]) -> bool
    ensures { result ≡ legal bytes.now }
{
    bytes.len() <= ROOM && all_printable(bytes)
}

// The label in a record's 24 bytes, with zeros behind it.
fn padded_label(bytes: &[u8]) -> [u8; 24]
    requires { length bytes.now ≤ 24 }
    ensures { result ≡ padded bytes.now }
{
    let mut room = [0u8; ROOM];
    room[..bytes.len()].copy_from_slice(bytes);
    room
}

impl Station {
    // A record with the label, which is tested before anything is copied.
    #[tactic(auto, using(crate::proofs::Labelling::label_put))]
    pub fn new(label: &[u8], status: Status, up: u64, down: u64) -> Result<Station, Refusal>
        ensures value { by_number result ≡ answered (label_refusal label.now) (station_with label.now status up down) }
        ensures labelled { IfOk result (λ s. label_of s.label ≡ label.now) }
    {
        if !is_legal(label) {
            return Err(Refusal::BadLabel);
        }
        Ok(Station {
            label: padded_label(label),
            status,
            up,
            down,
        })
    }

    // The label's bytes: whatever the record's are, a label.
    #[tactic(auto, using(crate::proofs::Labelling::label_legal))]
    pub fn label(&self) -> &[u8]
        ensures value { result.now ≡ label_of self.now.label }
        ensures legal { legal result.now ≡ true }
    {
        label_in(&self.label)
    }
}
