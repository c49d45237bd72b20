// Nodes by their parts: what a walk passes stands close together, apart from the values.
ghost use Rattle.std.specs.Prelude.{◌≡◌, ◌<◌, ◌≤◌, ◌+◌, ◌^◌, length};

use crate::halves::{joined, lower_half, put_upper, upper_at, upper_half};
use crate::node::{Joint, Node};
use paged_list::PagedRow;
use std::alloc::{AllocError, Global};
use value_data::Value;

// More nodes have no places.
const MOST: usize = u32::MAX as usize;

#[derive(Drop)]
pub(crate) struct NodeList {
    pub(crate) joints: PagedRow<Joint>,
    pub(crate) contents: PagedRow<Value>,
    // the upper halves of the stamps, up to the last that had one; those behind it are 0
    pub(crate) uppers: PagedRow<u64>,
    // each of the three has room for so many
    pub(crate) fitting: usize,
    ghost few: { fitting < 2 ^ 32 },
    ghost even: { length contents.items ≡ length joints.items },
    ghost fewer: { length uppers.items ≤ length joints.items },
    ghost fits: { length joints.items ≤ fitting },
    ghost joints_fit: { fitting ≤ length joints.items + joints.room },
    ghost contents_fit: { fitting ≤ length contents.items + contents.room },
    ghost uppers_fit: { fitting ≤ length uppers.items + uppers.room },
}

impl NodeList {
    ghost use Rattle.std.specs.Prelude.{◌++◌, ◌∷◌, [], IsOk, OnOk, OnErr, slice_set};
    ghost use Rattle.version_rings.specs.Inside.Nodes.{node_at, older_at, newer_at};
    ghost use Rattle.version_rings.specs.Inside.Nodes.{with_older, with_newer, new_content};
    ghost use Rattle.version_rings.specs.Inside.Listed.{nodes_listed, room_in};

    pub(crate) fn new(alloc: Global) -> NodeList
        ensures none { nodes_listed result ≡ [] }
        ensures room { room_in result ≡ 0 }
    {
        NodeList {
            joints: PagedRow::new(alloc),
            contents: PagedRow::new(alloc),
            uppers: PagedRow::new(alloc),
            fitting: 0,
        }
    }

    pub(crate) fn len(&self) -> u32
        ensures { result ≡ length (nodes_listed self.now) }
    {
        self.joints.len() as u32
    }

    // Makes room for so many more. A failure also means that they would have no places.
    pub(crate) fn reserve(&mut self, count: usize) -> Result<(), AllocError>
        ensures room { OnOk result (count ≤ room_in self.new) }
        ensures more { room_in self.old ≤ room_in self.new }
        ensures succeeds { count ≤ room_in self.old → IsOk result }
        ensures as_before { OnErr result (room_in self.new ≡ room_in self.old) }
        ensures same { nodes_listed self.new ≡ nodes_listed self.old }
    {
        let len = self.joints.len();
        if count <= self.fitting - len {
            return Ok(());
        }
        if count > MOST - len {
            return Err(AllocError);
        }
        self.joints.reserve(count)?;
        self.contents.reserve(count)?;
        self.uppers.reserve(len - self.uppers.len() + count)?;
        self.fitting = len + count;
        Ok(())
    }

    pub(crate) fn push_reserved(&mut self, node: Node)
        requires { 0 < room_in self.old }
        ensures nodes { nodes_listed self.new ≡ nodes_listed self.old ++ node ∷ [] }
        ensures room { room_in self.new + 1 ≡ room_in self.old }
    {
        let place = self.joints.len();
        put_upper(&mut self.uppers, place, upper_half(node.stamp));
        self.joints.put(Joint {
            lower: lower_half(node.stamp),
            older: node.older,
            newer: node.newer,
        });
        self.contents.put(node.content);
    }

    pub(crate) fn set(&mut self, place: u32, node: Node)
        requires { place < length (nodes_listed self.old) }
        ensures nodes { nodes_listed self.new ≡ slice_set (nodes_listed self.old) place node }
        ensures room { room_in self.new ≡ room_in self.old }
    {
        drop(self.replace(place, node));
    }

    // The same, and gives the value that was there, which no clause says.
    pub(crate) fn replace(&mut self, place: u32, node: Node) -> Value
        requires { place < length (nodes_listed self.old) }
        ensures nodes { nodes_listed self.new ≡ slice_set (nodes_listed self.old) place node }
        ensures room { room_in self.new ≡ room_in self.old }
    {
        let place = place as usize;
        put_upper(&mut self.uppers, place, upper_half(node.stamp));
        self.joints.set(
            place,
            Joint {
                lower: lower_half(node.stamp),
                older: node.older,
                newer: node.newer,
            },
        );
        self.contents.replace(place, node.content)
    }

    pub(crate) fn set_version(&mut self, place: u32, stamp: u128, content: Value)
        requires { place < length (nodes_listed self.old) }
        ensures nodes { nodes_listed self.new ≡ new_content place stamp content (nodes_listed self.old) }
        ensures room { room_in self.new ≡ room_in self.old }
    {
        let place = place as usize;
        put_upper(&mut self.uppers, place, upper_half(stamp));
        let joint = *self.joints.at(place);
        self.joints.set(
            place,
            Joint {
                lower: lower_half(stamp),
                ..joint
            },
        );
        self.contents.set(place, content);
    }

    pub(crate) fn set_older(&mut self, place: u32, older: u32)
        requires { place < length (nodes_listed self.old) }
        ensures nodes { nodes_listed self.new ≡ with_older place older (nodes_listed self.old) }
        ensures room { room_in self.new ≡ room_in self.old }
    {
        let place = place as usize;
        let joint = *self.joints.at(place);
        self.joints.set(place, Joint { older, ..joint });
    }

    pub(crate) fn set_newer(&mut self, place: u32, newer: u32)
        requires { place < length (nodes_listed self.old) }
        ensures nodes { nodes_listed self.new ≡ with_newer place newer (nodes_listed self.old) }
        ensures room { room_in self.new ≡ room_in self.old }
    {
        let place = place as usize;
        let joint = *self.joints.at(place);
        self.joints.set(place, Joint { newer, ..joint });
    }

    pub(crate) fn older(&self, place: u32) -> u32
        requires { place < length (nodes_listed self.now) }
        ensures { result ≡ older_at (nodes_listed self.now) place }
    {
        self.joints.at(place as usize).older
    }

    pub(crate) fn newer(&self, place: u32) -> u32
        requires { place < length (nodes_listed self.now) }
        ensures { result ≡ newer_at (nodes_listed self.now) place }
    {
        self.joints.at(place as usize).newer
    }

    pub(crate) fn stamp(&self, place: u32) -> u128
        requires { place < length (nodes_listed self.now) }
        ensures { result ≡ (node_at (nodes_listed self.now) place).stamp }
    {
        let place = place as usize;
        joined(upper_at(&self.uppers, place), self.joints.at(place).lower)
    }

    pub(crate) fn content(&self, place: u32) -> &Value
        requires { place < length (nodes_listed self.now) }
        ensures { result.now ≡ (node_at (nodes_listed self.now) place).content }
    {
        self.contents.at(place as usize)
    }
}
