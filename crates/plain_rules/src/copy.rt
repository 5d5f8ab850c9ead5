//! Copies of parts of operations, named by what they are, or that memory ran out.
ghost use Rattle.std.specs.Prelude.{◌≡◌, IfOk, IfErr};
ghost use Rattle.json_scalar.specs.declared.refusal.Refusal.TheVariants.{NoMemory};

use json_scalar::{Refusal, Scalar};
use op_core::{Key, Tagged};

/// A copy of a key.
pub fn key_copy(key: &Key) -> Result<Key, Refusal>
    ensures done { IfOk result (λ copy. copy ≡ key.now) }
    ensures memory { IfErr result (λ e. e ≡ NoMemory) }
{
    key.try_clone()
}

/// A copy of a tagged key.
pub fn tagged_copy(key: &Tagged) -> Result<Tagged, Refusal>
    ensures done { IfOk result (λ copy. copy ≡ key.now) }
    ensures memory { IfErr result (λ e. e ≡ NoMemory) }
{
    key.try_clone()
}

/// A copy of a scalar.
pub fn scalar_copy(scalar: &Scalar) -> Result<Scalar, Refusal>
    ensures done { IfOk result (λ copy. copy ≡ scalar.now) }
    ensures memory { IfErr result (λ e. e ≡ NoMemory) }
{
    scalar.try_clone()
}
