// The figures of a stretch of stations, by joining their elements left to right.
ghost use Rattle.std.specs.Prelude.{◌≡◌};
ghost use Rattle.std.specs.List.{list_all};
ghost use Rattle.refusal.specs.Refusals.{by_number, answered};
ghost use Rattle.kind.specs.Meaning.{meant_window, meant_ring};
ghost use Rattle.kind.specs.Stretch.{joined_all, stretch_refusal, stretch_ring_refusal};

use crate::Kind;
use crate::figures::Figures;
use refusal::Refusal;
use station::record::Station;

// Whether the kind takes every record.
fn all_taken<K: Kind>(kind: &K, stations: &[Station]) -> bool
    ensures { result ≡ list_all (K.Kind.ops kind.now).takes stations.now }
{
    stations.iter().all(|station| kind.takes(station))
}

// The stations' elements joined left to right, from the empty one.
fn join_all<K: Kind>(kind: &K, stations: &[Station]) -> K::Element
    ensures { result ≡ joined_all (K.Kind.ops kind.now) stations.now }
{
    stations.iter().fold(
        kind.empty(),
        |element, station| kind.join(&element, &kind.single(station)),
    )
}

// The refusal of a stretch that has a record which the kind does not take.
fn check_taken<K: Kind>(kind: &K, stations: &[Station]) -> Result<(), Refusal>
    ensures { by_number result ≡ answered (stretch_refusal (K.Kind.ops kind.now) stations.now) tt }
{
    if !all_taken(kind, stations) {
        return Err(Refusal::NotTaken);
    }
    Ok(())
}

// Both figures of the stations as a window: those of their joined elements, which say what the kind's figures mean.
pub fn window_of<K: Kind>(kind: &K, stations: &[Station]) -> Result<Figures, Refusal>
    ensures joined { by_number result ≡ answered (stretch_refusal (K.Kind.ops kind.now) stations.now) ((K.Kind.ops kind.now).window (joined_all (K.Kind.ops kind.now) stations.now)) }
    ensures says { by_number result ≡ meant_window (K.Kind.ops kind.now) (K.Kind.meaning kind.now) stations.now }
{
    check_taken(kind, stations)?;
    let element = join_all(kind, stations);
    Ok(kind.window_figures(&element))
}

// Both figures of the stations as a ring. Not one function with the window's: a ring has a refusal more, and other figures. Nothing is
// joined before the last test.
pub fn ring_of<K: Kind>(kind: &K, stations: &[Station]) -> Result<Figures, Refusal>
    ensures joined { by_number result ≡ answered (stretch_ring_refusal (K.Kind.ops kind.now) stations.now) ((K.Kind.ops kind.now).ring (joined_all (K.Kind.ops kind.now) stations.now)) }
    ensures says { by_number result ≡ meant_ring (K.Kind.ops kind.now) (K.Kind.meaning kind.now) stations.now }
{
    check_taken(kind, stations)?;
    if stations.len() < kind.shortest_ring() {
        return Err(Refusal::RingTooShort);
    }
    let element = join_all(kind, stations);
    Ok(kind.ring_figures(&element))
}
