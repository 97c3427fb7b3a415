// The parts of filling and writing: loops over the leaves, over the inner nodes, and from a leaf up to the root.
ghost use Rattle.std.specs.Prelude.{◌≡◌, ℕ, ◌+◌, ◌*◌, ◌/◌, ◌^◌, ◌<◌, ◌≤◌, ◌⊎◌, Some, length, slice_get};
ghost use Rattle.station.specs.declared.record.Station.{Station};
ghost use Rattle.tree.specs.Nodes.{cell_of, Holds, IsJoined, parent_of, Rewritten};

use crate::node::{rejoin, write, write_station};
use kind::Kind;
use station::record::Station;

// Writes each station's element into its leaf: the first one's is node `first`.
pub(crate) fn write_stations<K: Kind>(
    kind: &K,
    stations: &[Station],
    nodes: &mut [K::Cell],
    first: usize,
)
    requires low { 1 ≤ first }
    requires few { first + length stations.now ≤ 8192 }
    requires room { first + length stations.now ≤ length nodes.old + 1 }
    ensures stations { let o = K.Kind.ops kind.now in (q : ℕ) (x : Station) → slice_get stations.now q ≡ Some x → Holds o nodes.new (first + q) (o.single x) }
    ensures others { (i : ℕ) → 1 ≤ i → (i < first) ⊎ (first + length stations.now ≤ i) → cell_of nodes.new i ≡ cell_of nodes.old i }
{
    for (q, station) in stations.iter().enumerate() {
        write_station(kind, nodes, first + q, station);
    }
}

// Writes the empty element into each leaf from node `from` on, up to `to`, which is not included.
pub(crate) fn write_empty<K: Kind>(kind: &K, nodes: &mut [K::Cell], from: usize, to: usize)
    requires low { 1 ≤ from }
    requires order { from ≤ to }
    requires room { to ≤ length nodes.old + 1 }
    ensures empty { (i : ℕ) → from ≤ i → i < to → Holds (K.Kind.ops kind.now) nodes.new i (K.Kind.ops kind.now).empty }
    ensures others { (i : ℕ) → 1 ≤ i → (i < from) ⊎ (to ≤ i) → cell_of nodes.new i ≡ cell_of nodes.old i }
{
    let empty = kind.empty();
    for i in from..to {
        write(kind, nodes, i, &empty);
    }
}

// Writes each node before node `leaves` with the joining of its two children, the last one first, and counts the joins.
pub(crate) fn rejoin_all<K: Kind>(kind: &K, nodes: &mut [K::Cell], leaves: usize) -> usize
    requires low { 1 ≤ leaves }
    requires few { leaves ≤ 4096 }
    requires room { 2 * leaves ≤ length nodes.old + 1 }
    ensures joins { result + 1 ≡ leaves }
    ensures joined { (i : ℕ) → 1 ≤ i → i < leaves → IsJoined (K.Kind.ops kind.now) nodes.new i }
    ensures others { (i : ℕ) → leaves ≤ i → cell_of nodes.new i ≡ cell_of nodes.old i }
{
    let mut joins = 0;
    for i in (1..leaves).rev() {
        rejoin(kind, nodes, i);
        joins += 1;
    }
    joins
}

// The node above node i. The root has none.
fn parent(i: usize) -> Option<usize>
    ensures { result ≡ parent_of i }
{
    if i > 1 { Some(i / 2) } else { None }
}

// Writes a leaf with a station's element and rejoins each node above it, from below, and counts the joins.
#[tactic(auto, using(crate::proofs::Rewriting::raised_first))]
pub(crate) fn rewrite<K: Kind>(
    kind: &K,
    nodes: &mut [K::Cell],
    leaf: usize,
    station: &Station,
) -> usize
    requires low { 1 ≤ leaf }
    requires few { leaf < 8192 }
    requires room { 2 * (leaf / 2) + 1 ≤ length nodes.old }
    ensures joins { leaf / 2 ^ result ≡ 1 }
    ensures written { let o = K.Kind.ops kind.now in Rewritten o leaf (o.single station.now) nodes.old nodes.new }
{
    write_station(kind, nodes, leaf, station);
    let mut joins = 0;
    let mut i = leaf;
    while let Some(above) = parent(i) {
        rejoin(kind, nodes, above);
        joins += 1;
        i = above;
    }
    joins
}
