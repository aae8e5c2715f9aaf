// Lists of numbers that a certificate holds.
ghost use Rattle.std.specs.Prelude.{◌≡◌, IfOk};

use std::alloc::{AllocError, Global};
use std::marker::Model;

/// A list of signed numbers, as one value for each state.
#[derive(Drop)]
pub struct Values {
    numbers: Vec<i64>,
}

impl Model for Values {
    ghost use Rattle.std.specs.Prelude.{List, ℤ};

    ghost Value = { List ℤ };

    ghost view = { λ v. v.numbers.items };
}

impl Values {
    /// These numbers.
    pub fn from_vec(numbers: Vec<i64>) -> Self
        ensures { result ≡ numbers.items }
    {
        Values { numbers }
    }

    /// A copy of the numbers.
    pub fn from_slice(alloc: Global, numbers: &[i64]) -> Result<Self, AllocError>
        ensures { IfOk result (λ v. v ≡ numbers.now) }
    {
        let numbers = Vec::from_slice(alloc, numbers)?;
        Ok(Values { numbers })
    }

    /// The numbers.
    pub fn as_slice(&self) -> &[i64]
        ensures { result.now ≡ self.now }
    {
        &self.numbers
    }
}

/// A list of unsigned numbers, as one rank or chosen row for each state.
#[derive(Drop)]
pub struct Marks {
    numbers: Vec<u32>,
}

impl Model for Marks {
    ghost use Rattle.std.specs.Prelude.{List, ℕ};

    ghost Value = { List ℕ };

    ghost view = { λ m. m.numbers.items };
}

impl Marks {
    /// These numbers.
    pub fn from_vec(numbers: Vec<u32>) -> Self
        ensures { result ≡ numbers.items }
    {
        Marks { numbers }
    }

    /// A copy of the numbers.
    pub fn from_slice(alloc: Global, numbers: &[u32]) -> Result<Self, AllocError>
        ensures { IfOk result (λ m. m ≡ numbers.now) }
    {
        let numbers = Vec::from_slice(alloc, numbers)?;
        Ok(Marks { numbers })
    }

    /// The numbers.
    pub fn as_slice(&self) -> &[u32]
        ensures { result.now ≡ self.now }
    {
        &self.numbers
    }
}
