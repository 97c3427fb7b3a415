// A list of stations as the text of the records that add them.
ghost use Rattle.std.specs.Prelude.{◌≡◌, [], ◌∷◌, ◌++◌};
ghost use Rattle.std.specs.List.{list_any};
ghost use Rattle.text.specs.Grammar.{between_quotes, doubled, Text};
ghost use Rattle.text.specs.RoundTrip.{ReadsBack};
ghost use Rattle.text.specs.StationText.{is_mark, label_text, station_text, stations_text};
ghost use Rattle.text.specs.Stored.{Stored};
ghost use Rattle.text.specs.Writing.{with_text, told_length, filled};

use crate::sink::Sink;
use crate::written::{Written, write};
use station::record::Station;

// Whether a label with the byte is quoted.
fn is_mark(byte: u8) -> bool
    ensures { result ≡ is_mark byte }
{
    matches!(byte, b'"' | b',')
}

fn has_mark(label: &[u8]) -> bool
    ensures { result ≡ list_any is_mark label.now }
{
    label.iter().any(|&byte| is_mark(byte))
}

// The byte as it is written between quotes.
fn put_between_quotes(byte: u8, sink: &mut Sink<'_>)
    ensures { sink.new ≡ with_text (between_quotes byte) sink.old }
{
    if byte == b'"' {
        sink.bytes(b"\"\"");
    } else {
        sink.byte(byte);
    }
}

#[tactic(auto, using(crate::proofs::Putting::texts_more, crate::proofs::Putting::texts_all), unfolding(crate::specs::Writing::with_text))]
fn put_doubled(bytes: &[u8], sink: &mut Sink<'_>)
    ensures { sink.new ≡ with_text (doubled bytes.now) sink.old }
{
    for byte in bytes {
        put_between_quotes(*byte, sink);
    }
}

#[tactic(auto, using(crate::proofs::Putting::one_after_another))]
fn put_quoted(bytes: &[u8], sink: &mut Sink<'_>)
    ensures { sink.new ≡ with_text (34 ∷ doubled bytes.now ++ 34 ∷ []) sink.old }
{
    sink.byte(b'"');
    put_doubled(bytes, sink);
    sink.byte(b'"');
}

fn put_label(label: &[u8], sink: &mut Sink<'_>)
    ensures { sink.new ≡ with_text (label_text label.now) sink.old }
{
    if has_mark(label) {
        put_quoted(label, sink);
    } else {
        sink.bytes(label);
    }
}

// The station is handed over by value, so that what its memory can hold is known of it.
#[tactic(auto, using(crate::proofs::Putting::one_after_another, crate::proofs::WrittenColumns::station_split))]
fn put_station(station: Station, sink: &mut Sink<'_>)
    ensures text { sink.new ≡ with_text (station_text station) sink.old }
    ensures known { Stored station }
{
    sink.bytes(b"add,");
    put_label(station.label(), sink);
    sink.byte(b',');
    sink.line(
        station.status.word().as_bytes(),
        &[station.up, station.down],
    );
}

impl Written for Station {
    ghost text = { station_text };

    ghost Known = { Stored };

    fn put(&self, sink: &mut Sink<'_>) {
        put_station(*self, sink);
    }
}

// Writes the stations as add records if they fit, and tells the length needed: the greatest number where it is beyond that.
#[tactic(auto, using(crate::proofs::RoundTrips::stations_are_text, crate::proofs::RoundTrips::reads_back))]
pub fn write_stations(stations: &[Station], out: &mut [u8]) -> usize
    ensures needed { result ≡ told_length (stations_text stations.now) }
    ensures written { out.new ≡ filled (stations_text stations.now) out.old }
    // the text is one of the grammar, and reads back as the same stations
    ensures well_formed { Text (stations_text stations.now) }
    ensures reads_back { ReadsBack (stations_text stations.now) 0 stations.now }
{
    write(&stations, out)
}
