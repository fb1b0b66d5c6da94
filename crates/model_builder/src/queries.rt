//! What a builder tells of what it was given so far.

ghost use Rattle.std.specs.Prelude.{◌≡◌, ◌<◌, length, map, position, is_some, IfSome};
ghost use Rattle.std.specs.Str.{bytes_eq};
ghost use Rattle.model_builder.specs.Building.{is_at_root as is_root_innermost, is_taken as is_taken_in};
ghost use Rattle.model_builder.specs.Standing.{stands_for};

use crate::builder::ModelBuilder;

impl ModelBuilder {
    /// Whether the root is the innermost that is open.
    pub fn is_at_root(&self) -> bool
        ensures { result ≡ is_root_innermost (stands_for self.now) }
    {
        self.parts.opened.is_none() && self.parts.outer.is_empty()
    }

    /// Whether the innermost that is open is a disjunction.
    pub fn is_in_disjunction(&self) -> bool
        ensures { result ≡ is_some (stands_for self.now).opened }
    {
        self.parts.opened.is_some()
    }

    /// Whether a goal was given.
    pub fn has_goal(&self) -> bool
        ensures { result ≡ is_some (stands_for self.now).goal }
    {
        self.parts.goal.is_some()
    }

    /// Whether a variable or a Boolean has this name.
    pub fn is_taken(&self, name: &str) -> bool
        ensures { result ≡ is_taken_in name.now (stands_for self.now) }
    {
        self.parts.vars.contains(name) || self.parts.booleans.contains(name)
    }

    /// How many variables there are.
    pub fn var_count(&self) -> usize
        ensures { result ≡ length (stands_for self.now).vars }
    {
        self.parts.vars.len()
    }

    /// The id of the variable with this name.
    pub fn var_id(&self, name: &str) -> Option<u32>
        ensures id { result ≡ position (bytes_eq name.now) (map (λ v. v.0) (stands_for self.now).vars) }
        ensures within { IfSome result (λ id. id < length (stands_for self.now).vars) }
    {
        match self.find_var(name) {
            Some(index) => Some(index as u32),
            None => None,
        }
    }

    /// The id of the Boolean with this name.
    pub fn boolean_id(&self, name: &str) -> Option<u32>
        ensures id { result ≡ position (bytes_eq name.now) (map (λ b. b.0) (stands_for self.now).booleans) }
        ensures within { IfSome result (λ id. id < length (stands_for self.now).booleans) }
    {
        match self.find_boolean(name) {
            Some(index) => Some(index as u32),
            None => None,
        }
    }
}
