// The nodes of all rings, and those that are free.
ghost use Rattle.std.specs.Prelude.{◌≡◌, ◌<◌, ◌≤◌, ◌+◌, [], IsOk, IfOk, OnOk};
ghost use Rattle.std.specs.Prelude.{OnErr, option_map, length};
ghost use Rattle.value_data.specs.Inside.View.{view};
ghost use Rattle.version_rings.specs.Versions.{at_point};
ghost use Rattle.version_rings.specs.Inside.Nodes.{vacant, filled, linked, with_newest};
ghost use Rattle.version_rings.specs.Inside.Nodes.{with_content, newer_at, versions_from};
ghost use Rattle.version_rings.specs.Inside.Nodes.{all_emptied, CanEmpty, IsChainWithin, emptied};
ghost use Rattle.version_rings.specs.Inside.Listed.{nodes_listed};
ghost use Rattle.version_rings.specs.Inside.Seen.{space, room};

use crate::node::Node;
use crate::node_list::NodeList;
use std::alloc::{AllocError, Global};
use value_data::Value;

#[derive(Drop)]
pub(crate) struct Nodes {
    pub(crate) list: NodeList,
    // where there is one
    pub(crate) first_free: u32,
    pub(crate) free: usize,
}

impl Nodes {
    pub(crate) fn new(alloc: Global) -> Nodes
        ensures space { space result ≡ record { nodes = []; first = 0; free = 0 } }
        ensures room { room result ≡ 0 }
    {
        Nodes {
            list: NodeList::new(alloc),
            first_free: 0,
            free: 0,
        }
    }

    // Where the next node will stand.
    pub(crate) fn vacant(&self) -> u32
        ensures { result ≡ vacant (space self.now) }
    {
        if self.free == 0 {
            self.list.len()
        } else {
            self.first_free
        }
    }

    // Only where no node is free there is one more.
    pub(crate) fn put(&mut self, node: Node) -> Result<(), AllocError>
        requires { 0 < self.old.free → self.old.first_free < length (nodes_listed self.old.list) }
        ensures put { OnOk result (space self.new ≡ filled (space self.old) node) }
        ensures takes { OnOk result (room self.old ≤ room self.new + 1) }
        ensures room { 0 < room self.old → IsOk result }
        ensures same { OnErr result (space self.new ≡ space self.old) }
        ensures same_room { OnErr result (room self.new ≡ room self.old) }
    {
        if self.free == 0 {
            self.list.reserve(1)?;
            self.list.push_reserved(node);
            return Ok(());
        }
        let place = self.first_free;
        self.first_free = self.list.older(place);
        self.list.set(place, node);
        self.free -= 1;
        Ok(())
    }

    // Puts a node before the newest of a ring, and gives its place.
    pub(crate) fn put_before(
        &mut self,
        newest: u32,
        stamp: u128,
        content: Value,
    ) -> Result<u32, AllocError>
        requires vacant { 0 < self.old.free → self.old.first_free < length (nodes_listed self.old.list) }
        requires newest { newest < length (nodes_listed self.old.list) }
        requires oldest { newer_at (nodes_listed self.old.list) newest < length (nodes_listed self.old.list) }
        ensures place { IfOk result (λ place. place ≡ vacant (space self.old)) }
        ensures put { OnOk result
            (space self.new ≡ with_newest newest stamp content (space self.old)) }
        ensures takes { OnOk result (room self.old ≤ room self.new + 1) }
        ensures room { 0 < room self.old → IsOk result }
        ensures same { OnErr result (space self.new ≡ space self.old) }
        ensures same_room { OnErr result (room self.new ≡ room self.old) }
    {
        let oldest = self.list.newer(newest);
        let place = self.vacant();
        self.put(Node {
            stamp,
            content,
            older: newest,
            newer: oldest,
        })?;
        self.link(place, newest, oldest);
        Ok(place)
    }

    // The newest and the oldest of a ring link to a node between them.
    fn link(&mut self, place: u32, newest: u32, oldest: u32)
        requires newest { newest < length (nodes_listed self.old.list) }
        requires oldest { oldest < length (nodes_listed self.old.list) }
        ensures linked { space self.new ≡ linked place newest oldest (space self.old) }
        ensures room { room self.new ≡ room self.old }
    {
        self.list.set_newer(newest, place);
        self.list.set_older(oldest, place);
    }

    // The oldest of a ring becomes its newest: all links stay.
    pub(crate) fn overwrite_oldest(&mut self, newest: u32, stamp: u128, content: Value) -> u32
        requires newest { newest < length (nodes_listed self.old.list) }
        requires oldest { newer_at (nodes_listed self.old.list) newest < length (nodes_listed self.old.list) }
        ensures oldest { result ≡ newer_at (nodes_listed self.old.list) newest }
        ensures room { room self.new ≡ room self.old }
        ensures written { space self.new
            ≡ with_content result stamp content (space self.old) }
    {
        let oldest = self.list.newer(newest);
        self.list.set_version(oldest, stamp, content);
        oldest
    }

    // Makes room for so many more, with those that are free.
    pub(crate) fn reserve(&mut self, count: usize) -> Result<(), AllocError>
        ensures room { OnOk result (count ≤ room self.new) }
        ensures more { room self.old ≤ room self.new }
        ensures same { space self.new ≡ space self.old }
    {
        if self.free < count {
            self.list.reserve(count - self.free)?;
        }
        Ok(())
    }

    // Frees a node, and gives what it held.
    fn empty(&mut self, place: u32) -> Value
        requires within { place < length (nodes_listed self.old.list) }
        requires fits { self.old.free < length (nodes_listed self.old.list) }
        ensures { space self.new ≡ emptied place (space self.old) }
    {
        let content = self.list.replace(
            place,
            Node {
                stamp: 0,
                content: Value::Nil,
                older: self.first_free,
                newer: place,
            },
        );
        self.first_free = place;
        self.free += 1;
        content
    }

    // Frees so many nodes, from a place on to older ones.
    pub(crate) fn empty_all(&mut self, newest: u32, count: u32)
        requires { CanEmpty count newest (space self.old) }
        ensures { space self.new ≡ all_emptied count newest (space self.old) }
    {
        let mut place = newest;
        for _done in 0..count {
            let older = self.list.older(place);
            drop(self.empty(place));
            place = older;
        }
    }

    // The same, and puts what they held behind these values. What finds no room there is dropped.
    pub(crate) fn take_all(&mut self, newest: u32, count: u32, values: &mut Vec<Value>)
        requires { CanEmpty count newest (space self.old) }
        ensures { space self.new ≡ all_emptied count newest (space self.old) }
    {
        let mut place = newest;
        for _done in 0..count {
            let older = self.list.older(place);
            let _ = values.push(self.empty(place));
            place = older;
        }
    }

    // Of so many versions, from a place on to older ones, the first that is old enough.
    pub(crate) fn read_at(&self, newest: u32, count: u32, point: u128) -> Option<&Value>
        requires { IsChainWithin (nodes_listed self.now.list) count newest }
        ensures { option_map (λ v. view v.now) result
            ≡ at_point point (versions_from (nodes_listed self.now.list) count newest) }
    {
        let mut place = newest;
        for _passed in 0..count {
            if self.list.stamp(place) <= point {
                return Some(self.list.content(place));
            }
            place = self.list.older(place);
        }
        None
    }
}
