// A value that several transitions hold together.
ghost use Rattle.std.specs.Prelude.{◌≡◌, IfOk};

use drn_expr::RatPoly;
use std::alloc::{AllocError, Global};
use std::ops::Deref;
use std::rc::Rc;

/// A value that several transitions hold together.
#[derive(Drop)]
pub struct SharedValue {
    value: Rc<RatPoly>,
}

impl std::marker::Model for SharedValue {
    ghost use Rattle.drn_expr.specs.RatPolys.{OverOne};

    ghost Value = { OverOne };

    ghost view = { λ v. v.value.value };
}

impl SharedValue {
    /// The value, to be shared.
    pub fn new(alloc: Global, value: RatPoly) -> Result<SharedValue, AllocError>
        ensures { IfOk result (λ v. v ≡ value) }
    {
        let value = Rc::new(alloc, value)?;
        Ok(SharedValue { value })
    }

    /// The same value. It takes no memory.
    pub fn share(&self) -> Result<SharedValue, AllocError>
        ensures { IfOk result (λ v. v ≡ self.now) }
    {
        let value = self.value.clone()?;
        Ok(SharedValue { value })
    }
}

impl Deref for SharedValue {
    type Target = RatPoly;

    ghost deref_gives = { λ v x. x ≡ v };

    fn deref(&self) -> &RatPoly
        ensures { result.now ≡ self.now }
    {
        &self.value
    }
}
