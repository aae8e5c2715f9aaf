//! Lists, each of which grows by itself.

ghost use Rattle.std.specs.Prelude.{◌≡◌, ◌<◌, List, [], ◌∷◌, ◌++◌, length, replicate, IfOk, OnOk, slice_index_or, slice_set};

use std::alloc::{AllocError, Global};
use std::marker::Model;

/// Lists of small values, numbered from 0.
#[derive(Drop)]
pub struct Lists<T: Copy> {
    lists: Vec<Vec<T>>,
}

impl<T: Copy> Model for Lists<T> {
    ghost use Rattle.std.specs.Prelude.{List, map};

    ghost Value = { List (List T) };

    ghost view = { λ l. map (λ v. v.items) l.lists.items };
}

impl<T: Copy> Lists<T> {
    /// No lists.
    pub(crate) fn new(alloc: Global) -> Self
        ensures { result ≡ [] }
    {
        Lists {
            lists: Vec::new(alloc),
        }
    }

    /// How many lists there are.
    pub(crate) fn len(&self) -> usize
        ensures { result ≡ length self.now }
    {
        self.lists.len()
    }

    /// A list.
    pub(crate) fn list(&self, i: usize) -> &[T]
        requires { i < length self.now }
        ensures { result.now ≡ slice_index_or self.now i [] }
    {
        &self.lists[i]
    }

    /// Adds an empty list behind the others.
    pub(crate) fn open(&mut self, alloc: Global) -> Result<(), AllocError>
        ensures { OnOk result (self.new ≡ self.old ++ [] ∷ []) }
    {
        self.lists.push(Vec::new(alloc))?;
        Ok(())
    }

    /// Adds a value to a list.
    pub(crate) fn push(&mut self, i: usize, value: T) -> Result<(), AllocError>
        requires { i < length self.old }
        ensures { OnOk result (self.new ≡ slice_set self.old i (slice_index_or self.old i [] ++ value ∷ [])) }
    {
        self.lists[i].push(value)?;
        Ok(())
    }

    /// Takes a list away, and leaves an empty one.
    pub(crate) fn take(&mut self, alloc: Global, i: usize) -> Vec<T>
        requires { i < length self.old }
        ensures list { result.items ≡ slice_index_or self.old i [] }
        ensures rest { self.new ≡ slice_set self.old i [] }
    {
        std::mem::replace(&mut self.lists[i], Vec::new(alloc))
    }
}
