//! The aggregators of a job, by name.
ghost use Rattle.std.specs.Prelude.{◌≡◌, [], ◌∷◌, ◌++◌, ◌⊎◌, ◌≤◌, ◌<◌, length, slice_get, None, Some, true, false, ◌≢◌};
ghost use Rattle.std.specs.Prelude.{IfNone, IfOk, IfErr, OnErr};
ghost use Rattle.std.specs.List.{list_all};
ghost use Rattle.std.specs.Option.{option_map};
ghost use Rattle.pg_global.specs.Registry.{refusal_of, place_of, is_name as name_test, is_name_byte};

use crate::AnyAggregator;
use indexmap::IndexMap;
use pg_program::Place;
use std::alloc::Global;
use std::marker::Model;
use thiserror::Error;

/// Why a name was not registered.
#[derive(Clone, Copy, Debug, PartialEq, Eq, Error)]
pub enum RegisterFault {
    /// 1: a growth was refused.
    #[error("out of memory")]
    Memory,
    /// 2: the name is registered.
    #[error("the name is taken")]
    NameTaken,
    /// 3: there are 16 aggregators already.
    #[error("more than 16 aggregators")]
    TooMany,
    /// 4: the name isn't 1 to 64 ASCII letters, digits, `_` and `-`.
    #[error("not a name of an aggregator")]
    BadName,
}

/// An aggregator as it is registered.
#[derive(Clone, Copy, Debug, PartialEq, Eq)]
pub struct Registration {
    pub kind: AnyAggregator,
    /// Whether it goes on from the value that was visible in the superstep.
    pub persistent: bool,
}

/// Aggregators by name, in the order of registration. A contract sees the list of names, as bytes, with
/// their registrations.
pub struct Registry {
    registered: IndexMap<String, Registration>,
}

// By hand, so that it is let go by one call wherever that is, and not field by field.
impl Drop for Registry {
    fn drop(self) {
        let Registry { registered: _ } = self;
    }
}

impl Model for Registry {
    ghost use Rattle.std.specs.Prelude.{◌≤◌, length};
    ghost use Rattle.pg_global.specs.Registry.{Registered};

    ghost Value = { Registered };

    ghost use Rattle.pg_global.specs.Names.{registered_of};

    ghost view = { λ r. registered_of r.registered.entries };

    ghost invariant = { λ r. length r.registered.entries ≤ 16 };
}

impl Registry {
    /// The registry of no aggregators.
    pub fn new(alloc: Global) -> Registry
        ensures { result ≡ [] }
    {
        Registry {
            registered: IndexMap::new(alloc),
        }
    }

    /// Registers an aggregator that starts each superstep from its initial value.
    pub fn register(
        &mut self,
        alloc: Global,
        name: &str,
        kind: AnyAggregator,
    ) -> Result<Place, RegisterFault>
        ensures ok { IfOk result
            (λ place. (place ≡ length self.old) × (refusal_of self.old name.now ≡ None)
            × (self.new ≡ self.old ++ (name.now, record { kind = kind; persistent = false }) ∷ [])) }
        ensures refused { IfErr result
            (λ f. (f ≡ RegisterFault.Memory) ⊎ (refusal_of self.old name.now ≡ Some f)) }
        ensures memory { result ≡ Err RegisterFault.Memory → refusal_of self.old name.now ≡ None }
        ensures err { OnErr result (self.new ≡ self.old) }
    {
        self.add(
            alloc,
            name,
            Registration {
                kind,
                persistent: false,
            },
        )
    }

    /// Registers an aggregator that goes on from the value that was visible in the superstep.
    pub fn register_persistent(
        &mut self,
        alloc: Global,
        name: &str,
        kind: AnyAggregator,
    ) -> Result<Place, RegisterFault>
        ensures ok { IfOk result
            (λ place. (place ≡ length self.old) × (refusal_of self.old name.now ≡ None)
            × (self.new ≡ self.old ++ (name.now, record { kind = kind; persistent = true }) ∷ [])) }
        ensures refused { IfErr result
            (λ f. (f ≡ RegisterFault.Memory) ⊎ (refusal_of self.old name.now ≡ Some f)) }
        ensures memory { result ≡ Err RegisterFault.Memory → refusal_of self.old name.now ≡ None }
        ensures err { OnErr result (self.new ≡ self.old) }
    {
        self.add(
            alloc,
            name,
            Registration {
                kind,
                persistent: true,
            },
        )
    }

    /// The place of a name.
    pub fn place(&self, name: &str) -> Option<Place>
        ensures { result ≡ place_of name.now self.now }
    {
        let place = self.registered.get_index_of(name)?;
        Some(Place::new(place as u8))
    }

    /// How many aggregators there are, at most 16.
    pub fn len(&self) -> usize
        ensures value { result ≡ length self.now }
        ensures limit { result ≤ 16 }
    {
        self.registered.len()
    }

    /// What is registered at a place.
    pub fn registration(&self, place: usize) -> Registration
        requires { place < length self.now }
        ensures { option_map (λ e. e.1) (slice_get self.now place) ≡ Some result }
    {
        let registered = &self.registered;
        match registered.get_index(place) {
            Some((_, registration)) => *registration,
            None => unreachable!(),
        }
    }

    fn add(
        &mut self,
        alloc: Global,
        name: &str,
        registration: Registration,
    ) -> Result<Place, RegisterFault>
        ensures ok { IfOk result
            (λ place. (place ≡ length self.old) × (refusal_of self.old name.now ≡ None)
            × (self.new ≡ self.old ++ (name.now, registration) ∷ [])) }
        ensures refused { IfErr result
            (λ f. (f ≡ RegisterFault.Memory) ⊎ (refusal_of self.old name.now ≡ Some f)) }
        ensures memory { result ≡ Err RegisterFault.Memory → refusal_of self.old name.now ≡ None }
        ensures err { OnErr result (self.new ≡ self.old) }
    {
        if let Some(fault) = self.refusal(name) {
            return Err(fault);
        }
        let place = self.registered.len();
        let Ok(name) = String::from_str(alloc, name) else {
            return Err(RegisterFault::Memory);
        };
        let Ok(_) = self.registered.insert(name, registration) else {
            return Err(RegisterFault::Memory);
        };
        Ok(Place::new(place as u8))
    }

    /// Why a name can't be registered, in the order of testing.
    #[tactic(auto, unfolding(crate::specs::Registry::refusal_of))]
    fn refusal(&self, name: &str) -> Option<RegisterFault>
        ensures value { result ≡ refusal_of self.now name.now }
        ensures not_memory { result ≢ Some RegisterFault.Memory }
        ensures free { IfNone result (place_of name.now self.now ≡ None) }
        ensures room { IfNone result (length self.now < 16) }
    {
        if !is_name(name) {
            return Some(RegisterFault::BadName);
        }
        if self.place(name).is_some() {
            return Some(RegisterFault::NameTaken);
        }
        if self.len() >= 16 {
            return Some(RegisterFault::TooMany);
        }
        None
    }
}

/// Whether a text is 1 to 64 ASCII letters, digits, `_` and `-`.
fn is_name(name: &str) -> bool
    ensures { result ≡ name_test name.now }
{
    (1..=64).contains(&name.len()) && has_name_bytes(name.as_bytes())
}

/// Whether all bytes are ASCII letters, digits, `_` or `-`.
fn has_name_bytes(name: &[u8]) -> bool
    ensures { result ≡ list_all is_name_byte name.now }
{
    name.iter().all(|byte| byte.is_ascii_alphanumeric() || *byte == b'_' || *byte == b'-')
}
