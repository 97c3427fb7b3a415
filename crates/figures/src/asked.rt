// A tree that is filled, and what it answers, as the program shows it: figures, and the joins that they took.
use examples::row::Answer;
use kind::Kind;
use refusal::Refusal;
use station::record::Station;
use tree::gathered::Gathered;
use tree::tree::Tree;

// The tree of these stations, with the joins of its filling.
pub(crate) fn filled<K: Kind>(
    kind: K,
    list: &[Station],
    nodes: &mut [K::Cell],
) -> Result<(Tree<K>, usize), Refusal> {
    Tree::fill(kind, list, nodes)
}

// A window's figures.
pub(crate) fn window<K: Kind>(
    tree: &Tree<K>,
    nodes: &[K::Cell],
    first: usize,
    last: usize,
) -> Result<Answer, Refusal> {
    let Gathered { element, joins } = tree.gather(nodes, first, last)?;
    let figures = tree.kind.window_figures(&element);
    Ok(Answer { figures, joins })
}

// What all places together hold.
fn all<K: Kind>(tree: &Tree<K>, nodes: &[K::Cell]) -> Result<Gathered<K::Element>, Refusal> {
    tree.gather_all(nodes)
}

// The figures of all places as a window.
pub(crate) fn whole<K: Kind>(tree: &Tree<K>, nodes: &[K::Cell]) -> Result<Answer, Refusal> {
    let Gathered { element, joins } = all(tree, nodes)?;
    let figures = tree.kind.window_figures(&element);
    Ok(Answer { figures, joins })
}

// The same as the ring, which needs as many stations as the shortest one has.
pub(crate) fn ring<K: Kind>(tree: &Tree<K>, nodes: &[K::Cell]) -> Result<Answer, Refusal> {
    if tree.shape.stations < tree.kind.shortest_ring() {
        return Err(Refusal::RingTooShort);
    }
    let Gathered { element, joins } = all(tree, nodes)?;
    let figures = tree.kind.ring_figures(&element);
    Ok(Answer { figures, joins })
}
