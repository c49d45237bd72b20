// Who keeps the versions of refs.
ghost use Rattle.std.specs.Prelude.{◌≡◌, ◌≢◌, false, Some, IsNone, IsSome, IfOk, OnOk, OnErr};
ghost use Rattle.std.specs.Prelude.{MatchOption, option_map};
ghost use Rattle.std.specs.Borrow.{sem};
ghost use Rattle.std.specs.Io.BufRead.{Rests};
ghost use Rattle.value_data.specs.Inside.View.{view};
ghost use Rattle.ref_history.specs.Versioned.{Ref, with_version, with_failed_read, with_least};
ghost use Rattle.ref_history.specs.Versioned.{with_most, readable, newest, is_newer};
ghost use Rattle.ref_history.specs.declared.ref_id.RefId.{RefId};
ghost use Rattle.ref_history.specs.Changes.{IsAbsent, SameRefs, SameBut, Changed};
ghost use Rattle.ref_history.specs.Effects.{version, first_ref, bounds_of};

use crate::ref_id::{Bounds, RefId};
use std::alloc::AllocError;
use value_data::Value;

/// Keeps the versions of refs, each ref under the id that it got when it was made. Where no ref
/// has an id, there is nothing to tell of it or to change.
///
/// `reserve` is for one ref, and takes no room from another. So all growth can come before the first
/// of many changes, and costs nothing for the refs that do not change.
pub trait History: Drop {
    /// The ref that has an id, with all its versions. What is stored forgets the oldest, so it
    /// stands for many refs; none where no ref has the id.
    ghost stands: { Self → RefId → Ref → Type 0 };

    /// The next version of the ref that has this id takes no memory.
    ghost has_room: { Self → RefId → Type 0 };

    /// Makes a ref whose first version is older than all commits.
    fn make(&mut self, value: Value, bounds: Bounds) -> Result<RefId, AllocError>
        ensures is_new { IfOk result (IsAbsent (stands self.old)) }
        ensures made { IfOk result (λ id.
            stands self.new id (first_ref (view value) bounds)) }
        ensures others { IfOk result (λ id. SameBut id (stands self.old) (stands self.new)) }
        ensures as_it_was { OnErr result (SameRefs (stands self.old) (stands self.new)) };

    /// Makes room for the next version of a ref.
    fn reserve(&mut self, id: RefId) -> Result<(), AllocError>
        ensures room { OnOk result (has_room self.new id) }
        ensures rooms { (other : RefId) → has_room self.old other → has_room self.new other }
        ensures same { SameRefs (stands self.old) (stands self.new) };

    /// Adds the newest version. It takes no memory.
    fn add_version(&mut self, id: RefId, stamp: u128, value: Value)
        requires { has_room self.old id }
        ensures added { Changed id (with_version (version stamp (view value)))
            (stands self.old) (stands self.new) }
        ensures rooms { (other : RefId) → other ≢ id
            → has_room self.old other → has_room self.new other };

    /// The value of the newest version that has at most this stamp, if it is kept. If it is not,
    /// that is noted: the next version is then kept beside all others, where the bounds allow it.
    /// It takes no memory, and costs a step for each version that is kept of this ref.
    fn read_at(&mut self, id: RefId, point: u128) -> Option<&Value>
        ensures* noted { sem 𝓛 (Rests Self.row self.entry (λ new. MatchOption result
            (Changed id with_failed_read (stands self.old) (stands new))
            (λ _. SameRefs (stands self.old) (stands new)))) }
        ensures value { (r : Ref) → stands self.old id r
            → option_map (λ v. view v.now) result ≡ readable point r }
        ensures absent { IsAbsent (stands self.old) id → IsNone result };

    /// The value of the newest version.
    fn newest(&self, id: RefId) -> Option<&Value>
        ensures value { (r : Ref) → stands self.now id r
            → option_map (λ v. view v.now) result ≡ newest r.versions }
        ensures there { (r : Ref) → stands self.now id r → IsSome result }
        ensures absent { IsAbsent (stands self.now) id → IsNone result };

    /// Whether the newest version has a stamp above the point.
    fn is_newer(&self, id: RefId, point: u128) -> bool
        ensures newer { (r : Ref) → stands self.now id r → result ≡ is_newer point r.versions }
        ensures absent { IsAbsent (stands self.now) id → result ≡ false };

    /// How many versions are kept behind the newest.
    fn count(&self, id: RefId) -> Option<u64>
        ensures kept { (r : Ref) → stands self.now id r → result ≡ Some r.kept }
        ensures absent { IsAbsent (stands self.now) id → IsNone result };

    fn bounds(&self, id: RefId) -> Option<Bounds>
        ensures bounds { (r : Ref) → stands self.now id r → result ≡ Some (bounds_of r) }
        ensures absent { IsAbsent (stands self.now) id → IsNone result };

    /// Sets the lower bound. What is kept stays.
    fn set_least(&mut self, id: RefId, least: u64)
        ensures { Changed id (with_least least) (stands self.old) (stands self.new) };

    /// Sets the upper bound. What is kept stays, also where it is more.
    fn set_most(&mut self, id: RefId, most: u64)
        ensures { Changed id (with_most most) (stands self.old) (stands self.new) };

    /// Drops a ref. It costs a step for each version that was kept of it, and takes no memory.
    fn drop_ref(&mut self, id: RefId)
        ensures gone { IsAbsent (stands self.new) id }
        ensures others { SameBut id (stands self.old) (stands self.new) };

    /// The same, and puts the values that were kept of it behind these, so that the caller drops
    /// them. What finds no room there is dropped at once.
    fn take_ref(&mut self, id: RefId, values: &mut Vec<Value>)
        ensures gone { IsAbsent (stands self.new) id }
        ensures others { SameBut id (stands self.old) (stands self.new) };
}
