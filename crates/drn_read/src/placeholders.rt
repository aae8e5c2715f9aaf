// The placeholders that a text defines.
ghost use Rattle.std.specs.Prelude.{◌≡◌, ◌<◌, ◌++◌, ◌∷◌, [], false, length, OnOk, find};
ghost use Rattle.std.specs.List.{list_any};
ghost use Rattle.std.specs.Option.{option_map};
ghost use Rattle.std.specs.Str.{bytes_eq};
ghost use Rattle.drn_read.specs.Judging.{most_placeholders};

use crate::shared::SharedValue;
use lift_names::Names;
use std::alloc::{AllocError, Global};
use std::marker::Model;

/// Placeholders in their order, found by name with one look-up: each has a name and a value.
#[derive(Drop)]
pub(crate) struct Placeholders {
    names: Names,
    values: Vec<SharedValue>,
}

impl Model for Placeholders {
    ghost use Rattle.std.specs.Prelude.{◌≡◌, ◌≤◌, List, length};
    ghost use Rattle.drn_read.specs.Sections.{Placeholder};
    ghost use Rattle.drn_read.specs.Judging.{most_placeholders};
    ghost use Rattle.drn_read.specs.Shown.{paired};

    ghost Value = { List Placeholder };

    ghost view = { λ p. paired p.names p.values.items };

    ghost invariant = { λ p. (length p.names ≡ length p.values.items)
        × (length p.names ≤ most_placeholders) };
}

impl Placeholders {
    /// No placeholder. It takes no memory.
    pub fn new(alloc: Global) -> Self
        ensures { result ≡ [] }
    {
        Placeholders {
            names: Names::new(alloc),
            values: Vec::new(alloc),
        }
    }

    /// How many there are.
    pub fn len(&self) -> usize
        ensures { result ≡ length self.now }
    {
        self.values.len()
    }

    /// Whether one has this name.
    pub fn contains(&self, name: &[u8]) -> bool
        ensures { result ≡ list_any (λ p. bytes_eq name.now p.name) self.now }
    {
        self.names.find(name).is_some()
    }

    /// The value of the placeholder of this name.
    pub fn find(&self, name: &[u8]) -> Option<&SharedValue>
        ensures { option_map (λ value. value.now) result
            ≡ option_map (λ p. p.value) (find (λ p. bytes_eq name.now p.name) self.now) }
    {
        let position = self.names.find(name)?;
        Some(&self.values[position as usize])
    }

    /// One more, whose name isn't there yet.
    pub fn push(&mut self, name: &[u8], value: SharedValue) -> Result<(), AllocError>
        requires room { length self.old < most_placeholders }
        requires new { list_any (λ p. bytes_eq name.now p.name) self.old ≡ false }
        ensures { OnOk result (self.new
            ≡ self.old ++ record { name = name.now; value = value } ∷ []) }
    {
        self.values.push(value)?;
        match self.names.push(name) {
            Ok(_) => Ok(()),
            Err(error) => {
                self.values.pop();
                Err(error)
            }
        }
    }
}
