// One node of a tree: read, written, rejoined. Node i is at index i - 1.
ghost use Rattle.std.specs.Prelude.{◌≡◌, ◌+◌, ◌*◌, ◌<◌, ◌≤◌, Some, length};
ghost use Rattle.tree.specs.Nodes.{beside, node, Holds, IsJoined, SameBut};

use kind::Kind;
use station::record::Station;

// The element that node i stands for, whatever its cell holds.
pub(crate) fn read<K: Kind>(kind: &K, nodes: &[K::Cell], i: usize) -> K::Element
    requires low { 1 ≤ i }
    requires high { i ≤ length nodes.now }
    ensures { node (K.Kind.ops kind.now) nodes.now i ≡ Some result }
{
    kind.from_cell(&nodes[i - 1])
}

// Writes node i whole, with an element's cell.
#[tactic(auto, using(crate::proofs::Lists::set_same, crate::proofs::Lists::set_other))]
pub(crate) fn write<K: Kind>(kind: &K, nodes: &mut [K::Cell], i: usize, element: &K::Element)
    requires low { 1 ≤ i }
    requires high { i ≤ length nodes.old }
    ensures cell { Holds (K.Kind.ops kind.now) nodes.new i element.now }
    ensures others { SameBut i nodes.old nodes.new }
{
    nodes[i - 1] = kind.to_cell(element);
}

// Writes node i with a station's element.
pub(crate) fn write_station<K: Kind>(kind: &K, nodes: &mut [K::Cell], i: usize, station: &Station)
    requires low { 1 ≤ i }
    requires high { i ≤ length nodes.old }
    ensures cell { let o = K.Kind.ops kind.now in Holds o nodes.new i (o.single station.now) }
    ensures others { SameBut i nodes.old nodes.new }
{
    write(kind, nodes, i, &kind.single(station));
}

// The joining of node i's two children.
fn joined<K: Kind>(kind: &K, nodes: &[K::Cell], i: usize) -> K::Element
    requires low { 1 ≤ i }
    requires high { 2 * i + 1 ≤ length nodes.now }
    requires few { i < 4096 }
    ensures { let o = K.Kind.ops kind.now in beside o (node o nodes.now (2 * i)) (node o nodes.now (2 * i + 1)) ≡ Some result }
{
    let left = read(kind, nodes, 2 * i);
    let right = read(kind, nodes, 2 * i + 1);
    kind.join(&left, &right)
}

// Writes node i with the joining of its two children, as these stand.
#[tactic(auto, using(crate::proofs::Cells::joined_from))]
pub(crate) fn rejoin<K: Kind>(kind: &K, nodes: &mut [K::Cell], i: usize)
    requires low { 1 ≤ i }
    requires high { 2 * i + 1 ≤ length nodes.old }
    requires few { i < 4096 }
    ensures joined { IsJoined (K.Kind.ops kind.now) nodes.new i }
    ensures others { SameBut i nodes.old nodes.new }
{
    let element = joined(kind, nodes, i);
    write(kind, nodes, i, &element);
}
