// The nodes that were looked at, and the look at one more.
ghost use Rattle.std.specs.Prelude.{◌≡◌, ◌≢◌, ◌++◌, ◌∷◌, [], None, IfOk, IsSome, OnErr, OnOk, option_map};
ghost use Rattle.meaning_true.specs.Knowing.{MayLook};
ghost use Rattle.derive_walk.specs.Keeping.{IsLookedUp};
ghost use Rattle.derive_walk.specs.Looks.{TakesLooks, looks_in, lost};
ghost use Rattle.derive_walk.specs.Places.{at_place, place_in};
ghost use Rattle.derive_walk.specs.Settings.{IsSetting, world_in};
ghost use Rattle.derive_walk.specs.States.{IsFormedIn, HoldsIn, OnlyLooks};

use crate::known::Known;
use crate::setting::Setting;
use crate::walk::Walk;
use indexmap::IndexMap;
use object_values::{Copied, Memory, Node, NodeRecord};
use odin_outside::Steps;
use std::alloc::Global;
use std::marker::Model;
use std::sync::ledger::Ledger;

/// The nodes that were looked at, each with the place of its record, where it has one: so none is
/// looked at twice.
pub struct Looked {
    places: IndexMap<Node, Option<u64>>,
}

impl Drop for Looked {
    fn drop(self) {
        let Looked { places } = self;
        drop(places);
    }
}

impl Model for Looked {
    ghost use Rattle.derive_walk.specs.Places.{Lookups};

    ghost Value = { Lookups };

    ghost view = { λ l. l.places.entries };
}

impl Looked {
    pub fn new(alloc: Global) -> Self
        ensures { result ≡ [] }
    {
        Looked {
            places: IndexMap::new(alloc),
        }
    }

    /// What was found of a node, where it was looked at.
    pub fn place(&self, node: &Node) -> Option<Option<u64>>
        ensures { result ≡ place_in self.now node.now }
    {
        match self.places.get(node) {
            None => None,
            Some(place) => Some(*place),
        }
    }

    /// Adds a node that isn't there. After want of memory all is as before.
    pub fn add(&mut self, node: Node, place: Option<u64>) -> Result<(), Memory>
        requires { place_in self.old node ≡ None }
        ensures ok { OnOk result (self.new ≡ self.old ++ (node, place) ∷ []) }
        ensures err { OnErr result (self.new ≡ self.old) }
    {
        self.places.insert(node, place)?;
        Ok(())
    }
}

/// The record of a node, where it has one. It is looked up once in a derivation: a later advance goes by
/// its place.
pub(crate) fn look<'a, K: Known, L: Ledger>(
    alloc: Global,
    setting: &Setting<'a, K>,
    walk: &mut Walk,
    node: &Node,
    steps: &mut Steps<L>,
) -> Result<Option<&'a NodeRecord>, Memory>
    requires set { IsSetting K.keeps setting.now }
    requires formed { IsFormedIn (world_in K.keeps setting.now) walk.old }
    ensures only { OnlyLooks walk.old walk.new }
    ensures formed { IsFormedIn (world_in K.keeps setting.now) walk.new }
    ensures holds { let w = world_in K.keeps setting.now in
        MayLook w.graph w.sources w.outcomes w.records walk.old.root node.now →
        HoldsIn w walk.old → HoldsIn w walk.new }
    ensures there { OnOk result (node.now.steps ≢ [] → IsSome (place_in walk.new.looked node.now)) }
    ensures record { let keeping = K.keeps setting.now.known.now in
        IfOk result (λ r. IsLookedUp keeping node.now (option_map (λ k. k.now) r)) }
    ensures counted { TakesLooks (looks_in walk.old) (looks_in walk.new)
        steps.old steps.new (lost result) }
{
    if node.steps.is_empty() {
        return Ok(None);
    }
    match look_up(alloc, setting, walk, node, steps)? {
        None => Ok(None),
        Some(place) => Ok(setting.known.at(place)),
    }
}

// The place of the record of a node with steps, where it has one.
fn look_up<K: Known, L: Ledger>(
    alloc: Global,
    setting: &Setting<'_, K>,
    walk: &mut Walk,
    node: &Node,
    steps: &mut Steps<L>,
) -> Result<Option<u64>, Memory>
    requires formed { IsFormedIn (world_in K.keeps setting.now) walk.old }
    requires stepped { node.now.steps ≢ [] }
    ensures only { OnlyLooks walk.old walk.new }
    ensures formed { IsFormedIn (world_in K.keeps setting.now) walk.new }
    ensures holds { let w = world_in K.keeps setting.now in
        MayLook w.graph w.sources w.outcomes w.records walk.old.root node.now →
        HoldsIn w walk.old → HoldsIn w walk.new }
    ensures there { OnOk result (IsSome (place_in walk.new.looked node.now)) }
    ensures place { let w = world_in K.keeps setting.now in
        IfOk result (λ place. at_place w.places place ≡ w.records node.now) }
    ensures counted { TakesLooks (looks_in walk.old) (looks_in walk.new)
        steps.old steps.new (lost result) }
{
    if let Some(place) = walk.looked.place(node) {
        return Ok(place);
    }
    let copy = node.copy(alloc)?;
    let place = setting.known.find(node, steps);
    walk.looked.add(copy, place)?;
    Ok(place)
}
