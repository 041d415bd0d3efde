// Names once more.
ghost use Rattle.std.specs.Prelude.{◌≡◌, IfOk};

use smps_words::Name;
use std::alloc::{AllocError, Global};

/// An equal name in memory of its own.
pub fn copied(alloc: Global, name: &Name) -> Result<Name, AllocError>
    ensures { IfOk result (λ copy. copy ≡ name.now) }
{
    Name::new(alloc, name.as_bytes())
}
