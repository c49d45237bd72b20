// The locals with an index by their names.
use crate::local::Local;
use std::collections::{BTreeMap, VecDeque};
use std::marker::Model;
use std::sync::ArcStr;

/// Names that are bound to values. Of several with one name the newest counts, until it is unbound.
#[derive(Drop)]
pub struct Locals {
    // the newest first
    pub(crate) locals: VecDeque<Local>,
    // of each name the place of its newest local
    pub(crate) index: BTreeMap<ArcStr, usize>,
}

impl Model for Locals {
    ghost use Rattle.std.specs.Prelude.{List, map};
    ghost use Rattle.special_forms.specs.Locals.{LocalData};
    ghost use Rattle.special_forms.specs.Inside.Naming.{locals_code, local_view, AreLinked};
    ghost use Rattle.special_forms.specs.Inside.Naming.{HasNewest};

    ghost Value = { List LocalData };

    ghost coded = { locals_code };

    ghost view = { λ a. map local_view a.locals.items };

    ghost invariant = { λ a. AreLinked a.locals.items
        × HasNewest a.index (map local_view a.locals.items) };
}
