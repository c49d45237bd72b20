// The tree that a list stands in.
use std::marker::Model;
use std::sync::Arc;

#[cycle(tree)]
#[derive(Debug, Drop)]
pub(crate) enum NumbersShape {
    Leaf(Vec<usize>),
    Fork(NumbersTree, NumbersTree),
}

// The height serves the balance alone: nothing is claimed of it.
#[cycle(tree)]
#[derive(Debug, Drop)]
pub(crate) struct NumbersNode {
    pub(crate) len: usize,
    // the last number, or 0 where there is none
    pub(crate) last: usize,
    pub(crate) height: u64,
    pub(crate) shape: NumbersShape,
}

// Numbers in a balanced tree of shared nodes.
#[cycle(tree)]
#[derive(Debug, Drop)]
pub(crate) struct NumbersTree {
    pub(crate) node: Arc<NumbersNode>,
}

impl Model for NumbersTree {
    ghost use Rattle.chunked_list.specs.Held.{NumbersTreeData};

    ghost Value = { NumbersTreeData };

    ghost use Rattle.std.specs.Arc.{arc_value};
    ghost use Rattle.chunked_list.specs.Nodes.{numbers_seen, KeepsNumbers};

    ghost view = { λ a. numbers_seen (arc_value a.node) };

    ghost invariant = { λ a. KeepsNumbers (arc_value a.node) };

    ghost size = { λ t. t.held };

    ghost use Rattle.chunked_list.specs.Falls.{numbers_shape-falls};

    ghost size_decreases = { λ a h. numbers_shape-falls a.node.value.shape };
}
