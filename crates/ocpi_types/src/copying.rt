ghost use Rattle.std.specs.Prelude.{◌≡◌, IfOk};

use ocpi_json::sequence::Sequence;
use std::alloc::{AllocError, Global};

/// What takes memory, and can be copied where there is some.
pub trait TryCopy: Sized {
    ghost use Rattle.std.specs.Prelude.{◌≡◌, IfOk};

    /// An equal value.
    fn copy(&self, alloc: Global) -> Result<Self, AllocError>
        ensures { IfOk result (λ copy. copy ≡ self.now) };
}

fn copies_of<T: TryCopy + Drop>(alloc: Global, items: &[T]) -> Result<Vec<T>, AllocError>
    ensures { IfOk result (λ copies. copies.items ≡ items.now) }
{
    let mut copies = Vec::with_capacity(alloc, items.len())?;
    for item in items {
        copies.push(item.copy(alloc)?)?;
    }
    Ok(copies)
}

fn items_of<T: Copy>(alloc: Global, items: &[T]) -> Result<Vec<T>, AllocError>
    ensures { IfOk result (λ copies. copies.items ≡ items.now) }
{
    let mut copies = Vec::with_capacity(alloc, items.len())?;
    for item in items {
        copies.push(*item)?;
    }
    Ok(copies)
}

/// The same items again.
pub fn copied<T: Copy>(alloc: Global, items: &Sequence<T>) -> Result<Sequence<T>, AllocError>
    ensures { IfOk result (λ copy. copy ≡ items.now) }
{
    Ok(Sequence::from_vec(items_of(alloc, items.as_slice())?))
}

impl<T: TryCopy + Drop> TryCopy for Sequence<T> {
    fn copy(&self, alloc: Global) -> Result<Sequence<T>, AllocError> {
        Ok(Sequence::from_vec(copies_of(alloc, self.as_slice())?))
    }
}
