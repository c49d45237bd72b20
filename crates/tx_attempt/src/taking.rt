// What is kept of refs, taken out to be committed.
ghost use Rattle.std.specs.Prelude.{◌≡◌, ◌≤◌, [], map, filter_map, length, if◌then◌else◌};
ghost use Rattle.std.specs.Prelude.{vec_capacity};
ghost use Rattle.repl_asks.specs.Inside.View.{name_view, change_view, commuted_view};
ghost use Rattle.repl_asks.specs.Transactions.{RefNameData};
ghost use Rattle.repl_asks.specs.Accesses.{is_among};
ghost use Rattle.tx_attempt.specs.Inside.Marks.{NamesOnce};
ghost use Rattle.tx_attempt.specs.Inside.States.{states_of, unnamed, change_in, commuted_in};

use crate::key::Key;
use crate::states::RefStates;
use repl_asks::{Change, Commuted};
use repl_values::RefName;

// Each takes about the logarithm of the number of refs, for each ref that it is given, and no
// memory: what they fill has room.
impl RefStates {
    // The values of these refs, which are named no more.
    pub(crate) fn take_values(&mut self, names: &[RefName], changes: Vec<Change>) -> Vec<Change>
        requires once { NamesOnce names.now }
        requires empty { changes.items ≡ [] }
        requires room { length names.now ≤ vec_capacity changes }
        ensures taken { map change_view result.items
            ≡ filter_map (change_in (states_of ⟦<Key as Ord>⟧.cmp self.old))
            (map name_view names.now) }
        ensures left { (n : RefNameData) → states_of ⟦<Key as Ord>⟧.cmp self.new n
            ≡ (if is_among n (map name_view names.now) then unnamed
            else states_of ⟦<Key as Ord>⟧.cmp self.old n) }
    {
        let mut changes = changes;
        for name in names {
            if let Some(state) = self.take(*name) {
                changes.push_reserved(Change {
                    name: *name,
                    now: state.value,
                });
            }
        }
        changes
    }

    // The commutes of these refs, of each that is named.
    pub(crate) fn take_commutes(
        &mut self,
        names: &[RefName],
        groups: Vec<Commuted>,
    ) -> Vec<Commuted>
        requires once { NamesOnce names.now }
        requires empty { groups.items ≡ [] }
        requires room { length names.now ≤ vec_capacity groups }
        ensures { map commuted_view result.items
            ≡ filter_map (commuted_in (states_of ⟦<Key as Ord>⟧.cmp self.old))
            (map name_view names.now) }
    {
        let mut groups = groups;
        for name in names {
            if let Some(state) = self.take(*name) {
                groups.push_reserved(Commuted {
                    name: *name,
                    commutes: state.into_commutes(),
                });
            }
        }
        groups
    }
}
