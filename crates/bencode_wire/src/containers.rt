// One list or dictionary that is open, and the values that go into it and out of it. What is
// refused changes nothing.
ghost use Rattle.std.specs.Prelude.{◌≡◌, List, ◌∷◌, Vec, IfOk, OnErr, None};
ghost use Rattle.bencode_wire.specs.Inside.Cut as cuts;
ghost use Rattle.bencode_wire.specs.Inside.Cut.{in_list};
ghost use Rattle.bencode_wire.specs.Inside.Beginnings as beginnings;
ghost use Rattle.bencode_wire.specs.Inside.ByteSteps.{judged};
ghost use Rattle.bencode_wire.specs.Tree as tree;
ghost use Rattle.bencode_wire.specs.Spelling.{put_sorted};
ghost use Rattle.bencode_wire.specs.Inside.View.{tree_view, trees_view, entries_view};
ghost use Rattle.bencode_wire.specs.Inside.Reader.{frame_view, dictionary_view};
ghost use Rattle.bencode_wire.specs.Inside.Gives.{Puts};
ghost use Rattle.std.specs.declared.alloc.Global.{Global};
ghost use Rattle.bencode_wire.specs.Inside.Places.{FitsPlace, value_of, IsContainer, IsText};
ghost use Rattle.bencode_wire.specs.Inside.Places.{GivesValueBack};

use crate::ben::{Ben, Dictionary};
use crate::copy::{copy_bytes, copy_items, copy_pairs};
use crate::cut::{Expected, OpenContainer, OpenDictionary, Place, Refused};
use crate::fault::WireFaultKind;
use std::alloc::{AllocError, Global};

impl Refused {
    pub(crate) fn for_memory(value: Ben) -> Refused
        ensures kind { result.kind ≡ WireFaultKind.NoMemory }
        ensures value { result.value ≡ value }
    {
        Refused {
            kind: WireFaultKind::NoMemory,
            value,
        }
    }
}

// What may come next in one that is open.
pub(crate) fn expected_in(innermost: &OpenContainer) -> Expected
    ensures { (fs : List cuts.OpenContainer) → result
        ≡ beginnings.expected_in (frame_view innermost.now ∷ fs) }
{
    match innermost {
        OpenContainer::List(_) => Expected::ItemOrEnd,
        OpenContainer::Dictionary(dictionary) => expected_in_dictionary(dictionary),
    }
}

fn expected_in_dictionary(dictionary: &OpenDictionary) -> Expected
    ensures { (fs : List cuts.OpenContainer) → result ≡ beginnings.expected_in
        (dictionary_view (entries_view dictionary.now.pairs.entries) dictionary.now.key ∷ fs) }
{
    match dictionary.key {
        None => Expected::KeyOrEnd,
        Some(_) => Expected::Value,
    }
}

// Where the next value will stand.
pub(crate) fn next_place(alloc: Global, innermost: &OpenContainer) -> Result<Place, AllocError>
    ensures { IfOk result (λ place. FitsPlace place (frame_view innermost.now)) }
{
    match innermost {
        OpenContainer::List(_) => Ok(Place::Item),
        OpenContainer::Dictionary(dictionary) => match &dictionary.key {
            None => Ok(Place::Key),
            Some(key) => Ok(Place::Value(copy_bytes(alloc, key)?)),
        },
    }
}

pub(crate) fn put_into(innermost: &mut OpenContainer, value: Ben) -> Result<(), Refused>
    ensures puts { (fs : List cuts.OpenContainer) → Puts
        (judged (beginnings.put put_sorted (frame_view innermost.old ∷ fs) (tree_view value)))
        (frame_view innermost.new ∷ fs) result }
    ensures refused { GivesValueBack value result }
    ensures same { OnErr result (frame_view innermost.new ≡ frame_view innermost.old) }
{
    match innermost {
        OpenContainer::List(items) => put_item(items, value),
        OpenContainer::Dictionary(dictionary) => put_pair(dictionary, value),
    }
}

#[tactic(auto, using(crate::proofs::Rules::item_steps))]
fn put_item(items: &mut Vec<Ben>, item: Ben) -> Result<(), Refused>
    ensures puts { (fs : List cuts.OpenContainer) → Puts (judged (beginnings.put put_sorted
        (in_list (trees_view items.old.items) ∷ fs) (tree_view item)))
        (in_list (trees_view items.new.items) ∷ fs) result }
    ensures refused { GivesValueBack item result }
    ensures same { OnErr result (items.new.items ≡ items.old.items) }
{
    match items.push(item) {
        Ok(()) => Ok(()),
        Err(refused) => Err(Refused::for_memory(refused.value)),
    }
}

// A key, or the value of the key that stands before it.
fn put_pair(dictionary: &mut OpenDictionary, value: Ben) -> Result<(), Refused>
    ensures puts { (fs : List cuts.OpenContainer) → Puts (judged (beginnings.put put_sorted
        (dictionary_view (entries_view dictionary.old.pairs.entries) dictionary.old.key ∷ fs)
        (tree_view value)))
        (dictionary_view (entries_view dictionary.new.pairs.entries) dictionary.new.key ∷ fs)
        result }
    ensures refused { GivesValueBack value result }
    ensures pairs { OnErr result (dictionary.new.pairs.entries ≡ dictionary.old.pairs.entries) }
    ensures key { OnErr result (dictionary.new.key ≡ dictionary.old.key) }
{
    match dictionary.key.take() {
        None => put_key(dictionary, value),
        Some(key) => match dictionary.pairs.insert(key, value) {
            Ok(_) => Ok(()),
            Err(refused) => {
                let (key, value) = refused.value;
                dictionary.key = Some(key);
                Err(Refused::for_memory(value))
            }
        },
    }
}

// A key has to be a string, and a key that stood before in its dictionary is refused at its last
// byte.
fn put_key(dictionary: &mut OpenDictionary, key: Ben) -> Result<(), Refused>
    requires { dictionary.old.key ≡ None }
    ensures puts { (fs : List cuts.OpenContainer) → Puts (judged (beginnings.put put_sorted
        (cuts.at_key (entries_view dictionary.old.pairs.entries) ∷ fs) (tree_view key)))
        (dictionary_view (entries_view dictionary.new.pairs.entries) dictionary.new.key ∷ fs)
        result }
    ensures refused { GivesValueBack key result }
    ensures pairs { dictionary.new.pairs.entries ≡ dictionary.old.pairs.entries }
    ensures key { OnErr result (dictionary.new.key ≡ None) }
{
    match key {
        Ben::String(key) => put_name(dictionary, key),
        Ben::Integer(n) => Err(malformed(Ben::Integer(n))),
        Ben::List(items) => Err(malformed(Ben::List(items))),
        Ben::Dictionary(pairs) => Err(malformed(Ben::Dictionary(pairs))),
    }
}

fn malformed(value: Ben) -> Refused
    ensures kind { result.kind ≡ WireFaultKind.Malformed }
    ensures value { result.value ≡ value }
{
    Refused {
        kind: WireFaultKind::Malformed,
        value,
    }
}

fn put_name(dictionary: &mut OpenDictionary, key: Vec<u8>) -> Result<(), Refused>
    requires { dictionary.old.key ≡ None }
    ensures puts { (fs : List cuts.OpenContainer) → Puts (judged (beginnings.names
        (entries_view dictionary.old.pairs.entries) key.items fs))
        (dictionary_view (entries_view dictionary.new.pairs.entries) dictionary.new.key ∷ fs)
        result }
    ensures refused { GivesValueBack (Ben.String key) result }
    ensures pairs { dictionary.new.pairs.entries ≡ dictionary.old.pairs.entries }
    ensures key { OnErr result (dictionary.new.key ≡ None) }
{
    if has_key(&dictionary.pairs, &key) {
        return Err(malformed(Ben::String(key)));
    }
    dictionary.key = Some(key);
    Ok(())
}

fn has_key(pairs: &Dictionary, key: &Vec<u8>) -> bool
    ensures { result ≡ tree.holds_key key.now.items (entries_view pairs.now.entries) }
{
    pairs.contains_key(key)
}

// The value that ends.
pub(crate) fn ended(container: OpenContainer) -> Ben
    ensures value { tree_view result ≡ value_of (frame_view container) }
    ensures container { IsContainer (tree_view result) }
{
    match container {
        OpenContainer::List(items) => Ben::List(items),
        OpenContainer::Dictionary(dictionary) => Ben::Dictionary(dictionary.pairs),
    }
}

// A copy of it.
pub(crate) fn ended_copy(alloc: Global, container: &OpenContainer) -> Result<Ben, AllocError>
    ensures { IfOk result (λ copied. tree_view copied ≡ value_of (frame_view container.now)) }
{
    match container {
        OpenContainer::List(items) => Ok(Ben::List(copy_items(alloc, items)?)),
        OpenContainer::Dictionary(dictionary) => {
            Ok(Ben::Dictionary(copy_pairs(alloc, &dictionary.pairs)?))
        }
    }
}

// A list or a dictionary, opened again at its end.
pub(crate) fn reopened(value: Ben) -> OpenContainer
    requires { IsContainer (tree_view value) }
    ensures { (f : cuts.OpenContainer) → value_of f ≡ tree_view value → cuts.CanEnd f
        → frame_view result ≡ f }
{
    match value {
        Ben::List(items) => OpenContainer::List(items),
        Ben::Dictionary(pairs) => OpenContainer::Dictionary(OpenDictionary { pairs, key: None }),
        Ben::Integer(_) => unreachable!(),
        Ben::String(_) => unreachable!(),
    }
}

pub(crate) fn copy_container(
    alloc: Global,
    container: &OpenContainer,
) -> Result<OpenContainer, AllocError>
    ensures { IfOk result (λ copied. frame_view copied ≡ frame_view container.now) }
{
    match container {
        OpenContainer::List(items) => Ok(OpenContainer::List(copy_items(alloc, items)?)),
        OpenContainer::Dictionary(dictionary) => {
            let pairs = copy_pairs(alloc, &dictionary.pairs)?;
            let key = match &dictionary.key {
                Some(key) => Some(copy_bytes(alloc, key)?),
                None => None,
            };
            Ok(OpenContainer::Dictionary(OpenDictionary { pairs, key }))
        }
    }
}

// The bytes of a string.
pub(crate) fn bytes_of(value: Ben) -> Vec<u8>
    requires { IsText (tree_view value) }
    ensures { value ≡ Ben.String result }
{
    match value {
        Ben::String(bytes) => bytes,
        Ben::Integer(_) => unreachable!(),
        Ben::List(_) => unreachable!(),
        Ben::Dictionary(_) => unreachable!(),
    }
}
