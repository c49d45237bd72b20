// What a program computes with. Functions are no values: they are named by symbols.
ghost use Rattle.std.specs.Prelude.{◌≡◌, IfOk};
ghost use Rattle.value_data.specs.Listed.{items_of};
ghost use Rattle.value_data.specs.Inside.Nodes.{KeepsPairs, entry_pairs};

use crate::edits::copy_node;
use crate::node_measures::{ItemsMeasure, Peaks};
use chunked_list::RankedPlaces;
use std::alloc::{AllocError, Global};
use std::marker::Model;
use std::sync::{Arc, ArcStr};

/// Who made a ref: the text that every tenant shares, or one tenant.
#[derive(Clone, Copy, Debug, PartialEq, Eq)]
pub enum Owner {
    Shared,
    Tenant(u64),
}

/// The name of a ref. Each owner numbers its refs from 0 in the order of their making.
#[derive(Clone, Copy, Debug, PartialEq, Eq)]
pub struct RefName {
    pub owner: Owner,
    pub number: u64,
}

/// A value of the language. Only `Nil` and `Bool(false)` are false in a test.
///
/// Texts, items and pairs are shared: a copy is one more owner of them. A `Keyword` is kept without
/// its colon.
#[cycle(value)]
#[derive(Debug, Drop)]
pub enum Value {
    Nil,
    Bool(bool),
    Int(i64),
    Str(ArcStr),
    Keyword(ArcStr),
    Symbol(ArcStr),
    List(Sequence),
    Vector(Sequence),
    Map(Table),
    Ref(RefName),
    Atom(u64),
    Agent(u64),
    Var { space: ArcStr, name: ArcStr },
    Fault { class: ArcStr, text: ArcStr },
}

// Items in one row, or those of two trees, one behind the other.
#[cycle(value)]
#[derive(Debug, Drop)]
pub(crate) enum ItemsShape {
    Leaf(Vec<Value>),
    Fork(ItemsTree, ItemsTree),
}

// Items with their number and what was measured of them once. The height serves the balance alone.
#[cycle(value)]
#[derive(Debug, Drop)]
pub(crate) struct ItemsNode {
    pub(crate) len: usize,
    pub(crate) height: u64,
    pub(crate) measure: ItemsMeasure,
    pub(crate) shape: ItemsShape,
}

// Items in a balanced tree of nodes, each of which many trees may share.
#[cycle(value)]
#[derive(Debug, Drop)]
pub(crate) struct ItemsTree {
    pub(crate) node: Arc<ItemsNode>,
}

impl Model for ItemsTree {
    ghost use Rattle.value_data.specs.Inside.Held.{ItemsTreeData, tree_code};

    ghost Value = { ItemsTreeData };

    ghost coded = { tree_code };

    ghost use Rattle.std.specs.Arc.{arc_value};
    ghost use Rattle.value_data.specs.Inside.Nodes.{seen, KeepsItems};

    ghost view = { λ a. seen (arc_value a.node) };

    ghost invariant = { λ a. KeepsItems (arc_value a.node) };

    ghost size = { λ t. t.held };

    ghost use Rattle.value_data.specs.Inside.Falls.{shape-falls};

    ghost size_decreases = { λ a h. shape-falls a.node.value.shape };
}

/// The items of a list or a vector, in a tree of nodes that many values may share.
#[cycle(value)]
#[derive(Debug)]
pub struct Sequence {
    pub(crate) node: Arc<ItemsNode>,
}

impl Drop for Sequence {
    #[cycle(value)]
    fn drop(self) {
        let Sequence { node: _node } = self;
    }
}

impl Sequence {
    pub(crate) fn into_tree(self) -> ItemsTree
        ensures { self.items ≡ items_of result.items }
    {
        let Sequence { node } = self;
        ItemsTree { node }
    }
}

impl Model for Sequence {
    ghost use Rattle.value_data.specs.Inside.Held.{SequenceData, sequence_code};

    ghost Value = { SequenceData };

    ghost coded = { sequence_code };

    ghost use Rattle.std.specs.Arc.{arc_value};
    ghost use Rattle.value_data.specs.Inside.Nodes.{seen_items, KeepsItems};

    ghost view = { λ a. seen_items (arc_value a.node) };

    ghost invariant = { λ a. KeepsItems (arc_value a.node) };

    ghost size = { λ s. s.held };

    ghost use Rattle.value_data.specs.Inside.Falls.{shape-falls};

    ghost size_decreases = { λ a h. shape-falls a.node.value.shape };
}

// Pairs in the order in which they were put in: their keys, and at the same places their values.
#[cycle(value)]
#[derive(Debug, Drop)]
pub(crate) struct Entries {
    pub(crate) keys: Sequence,
    pub(crate) values: Sequence,
}

impl Model for Entries {
    ghost use Rattle.value_data.specs.Inside.Held.{EntriesData, entries_code};

    ghost Value = { EntriesData };

    ghost coded = { entries_code };

    ghost use Rattle.value_data.specs.Inside.Nodes.{seen_entries, AreEven};

    ghost view = { λ a. seen_entries a.keys a.values };

    ghost invariant = { λ a. AreEven a.keys a.values };

    ghost size = { λ e. e.held };

    ghost use Rattle.value_data.specs.Inside.Falls.{entries-fall};

    ghost size_decreases = { λ a h. entries-fall a };
}

// Pairs with their places in the order of their keys and what their hash is made of.
#[cycle(value)]
#[derive(Debug, Drop)]
pub(crate) struct PairsNode {
    pub(crate) entries: Entries,
    pub(crate) index: RankedPlaces,
    pub(crate) peaks: Peaks,
}

/// The pairs of a map: one node, which many values may share. No two keys are equal.
#[cycle(value)]
#[derive(Debug)]
pub struct Table {
    pub(crate) node: Arc<PairsNode>,
}

impl Drop for Table {
    #[cycle(value)]
    fn drop(self) {
        let Table { node: _node } = self;
    }
}

impl Table {
    // What the node of the pairs holds, or copies of it where somebody else holds it too.
    pub(crate) fn into_owned_node(self, alloc: Global) -> Result<PairsNode, AllocError>
        ensures pairs { IfOk result (λ node. entry_pairs node.entries ≡ self.pairs) }
        ensures keeps { IfOk result (λ node. KeepsPairs node) }
    {
        let Table { node } = self;
        match Arc::try_unwrap(node) {
            Ok(node) => Ok(node),
            Err(shared) => copy_node(alloc, &shared),
        }
    }
}

impl Model for Table {
    ghost use Rattle.value_data.specs.Inside.Held.{TableData, table_code};

    ghost Value = { TableData };

    ghost coded = { table_code };

    ghost use Rattle.std.specs.Arc.{arc_value};
    ghost use Rattle.value_data.specs.Inside.Nodes.{seen_pairs, KeepsPairs};

    ghost view = { λ a. seen_pairs (arc_value a.node) };

    ghost invariant = { λ a. KeepsPairs (arc_value a.node) };

    ghost size = { λ t. t.held };

    ghost use Rattle.value_data.specs.Inside.Falls.{pairs-fall};

    ghost size_decreases = { λ a h. pairs-fall a.node.value.entries };
}
