//! The variables and the Booleans of a model, each under a name of its own.

ghost use Rattle.std.specs.Prelude.{◌≡◌, false, [], ◌∷◌, ◌++◌, length, map, position, OnOk, OnErr};
ghost use Rattle.std.specs.Str.{bytes_eq};
ghost use Rattle.model_tree.specs.Names.{has_name};

use crate::bounds::Bound;
use crate::names::Names;
use gdp_io::Name;
use lp_rows::Kind;
use outcomes::Memory;
use std::alloc::Global;
use std::marker::Model;

/// Variables in the order of their declaration, found by their names.
#[derive(Drop)]
pub struct Variables {
    names: Names,
    items: Vec<(Name, Kind, Bound, u32)>,
}

impl Model for Variables {
    ghost use Rattle.std.specs.Prelude.{◌≡◌, List, map};
    ghost use Rattle.model_tree.specs.Variables.{VarValue};

    ghost Value = { List VarValue };

    ghost view = { λ v. v.items.items };

    ghost invariant = { λ v. v.names ≡ map (λ x. x.0) v.items.items };
}

impl Variables {
    /// No variables.
    pub fn new(alloc: Global) -> Variables
        ensures { result ≡ [] }
    {
        Variables {
            names: Names::new(alloc),
            items: Vec::new(alloc),
        }
    }

    /// Whether a variable has this name.
    pub fn contains(&self, name: &str) -> bool
        ensures { result ≡ has_name name.now (map (λ v. v.0) self.now) }
    {
        self.names.contains(name)
    }

    /// The number of the variable with this name.
    pub fn find(&self, name: &str) -> Option<usize>
        ensures { result ≡ position (bytes_eq name.now) (map (λ v. v.0) self.now) }
    {
        self.names.find(name)
    }

    /// Adds a variable whose name is not yet there. A refused call changes nothing.
    pub fn push(
        &mut self,
        alloc: Global,
        name: &str,
        kind: Kind,
        bound: Bound,
        mark: u32,
    ) -> Result<(), Memory>
        requires { has_name name.now (map (λ v. v.0) self.old) ≡ false }
        ensures ok { OnOk result (self.new ≡ self.old ++ (name.now, kind, bound, mark) ∷ []) }
        ensures err { OnErr result (self.new ≡ self.old) }
    {
        let Ok(owned) = Name::from_str(alloc, name) else {
            return Err(Memory);
        };
        if self.items.reserve(1).is_err() {
            return Err(Memory);
        }
        if self.names.push(alloc, name).is_err() {
            return Err(Memory);
        }
        self.items.push_reserved((owned, kind, bound, mark));
        Ok(())
    }

    /// The variables.
    pub fn as_slice(&self) -> &[(Name, Kind, Bound, u32)]
        ensures { result.now ≡ self.now }
    {
        self.items.as_slice()
    }

    /// How many variables there are.
    pub fn len(&self) -> usize
        ensures { result ≡ length self.now }
    {
        self.items.len()
    }
}

/// Booleans in the order of their declaration, found by their names.
#[derive(Drop)]
pub struct Booleans {
    names: Names,
    items: Vec<(Name, u32)>,
}

impl Model for Booleans {
    ghost use Rattle.std.specs.Prelude.{◌≡◌, List, map};
    ghost use Rattle.model_tree.specs.Variables.{BooleanValue};

    ghost Value = { List BooleanValue };

    ghost view = { λ v. v.items.items };

    ghost invariant = { λ v. v.names ≡ map (λ x. x.0) v.items.items };
}

impl Booleans {
    /// No Booleans.
    pub fn new(alloc: Global) -> Booleans
        ensures { result ≡ [] }
    {
        Booleans {
            names: Names::new(alloc),
            items: Vec::new(alloc),
        }
    }

    /// Whether a Boolean has this name.
    pub fn contains(&self, name: &str) -> bool
        ensures { result ≡ has_name name.now (map (λ b. b.0) self.now) }
    {
        self.names.contains(name)
    }

    /// The number of the Boolean with this name.
    pub fn find(&self, name: &str) -> Option<usize>
        ensures { result ≡ position (bytes_eq name.now) (map (λ b. b.0) self.now) }
    {
        self.names.find(name)
    }

    /// Adds a Boolean whose name is not yet there. A refused call changes nothing.
    pub fn push(&mut self, alloc: Global, name: &str, mark: u32) -> Result<(), Memory>
        requires { has_name name.now (map (λ b. b.0) self.old) ≡ false }
        ensures ok { OnOk result (self.new ≡ self.old ++ (name.now, mark) ∷ []) }
        ensures err { OnErr result (self.new ≡ self.old) }
    {
        let Ok(owned) = Name::from_str(alloc, name) else {
            return Err(Memory);
        };
        if self.items.reserve(1).is_err() {
            return Err(Memory);
        }
        if self.names.push(alloc, name).is_err() {
            return Err(Memory);
        }
        self.items.push_reserved((owned, mark));
        Ok(())
    }

    /// The Booleans.
    pub fn as_slice(&self) -> &[(Name, u32)]
        ensures { result.now ≡ self.now }
    {
        self.items.as_slice()
    }

    /// How many Booleans there are.
    pub fn len(&self) -> usize
        ensures { result ≡ length self.now }
    {
        self.items.len()
    }
}
