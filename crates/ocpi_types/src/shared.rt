//! Values that several owners hold.

ghost use Rattle.std.specs.Prelude.{◌≡◌, IfOk};

use super::copying::TryCopy;
use ocpi_json::Node;
use ocpi_json::fields::FieldFault;
use ocpi_json::objects::FromNodeIn;
use ocpi_json::same::Same;
use std::alloc::{AllocError, Global};
use std::marker::Model;
use std::ops::Deref;
use std::sync::Arc;

/// A value that several owners can hold. One more owner takes no memory.
#[derive(Drop)]
pub struct Shared<T> {
    value: Arc<T>,
}

impl<T> Model for Shared<T> {
    ghost Value = { T };

    ghost view = { λ shared. shared.value.value };
}

/// A change of a value that contracts do not see.
pub trait Unseen<T> {
    ghost use Rattle.std.specs.Prelude.{◌≡◌};

    fn change(&self, value: &mut T)
        ensures { value.new ≡ value.old };
}

impl<T: Drop> Shared<T> {
    /// The value, which has one owner yet.
    pub fn new(alloc: Global, value: T) -> Result<Shared<T>, AllocError>
        ensures { IfOk result (λ shared. shared ≡ value) }
    {
        match Arc::new(alloc, value) {
            Ok(value) => Ok(Shared { value }),
            Err(_) => Err(AllocError),
        }
    }

    /// The same value, for one more owner.
    ///
    /// # Errors
    ///
    /// `AllocError` where it has as many owners as can be counted, 2^63 - 1.
    pub fn share(&self) -> Result<Shared<T>, AllocError>
        ensures { IfOk result (λ shared. shared ≡ self.now) }
    {
        Ok(Shared {
            value: Arc::try_clone(&self.value)?,
        })
    }

    /// Changes the value, where it has no other owner.
    pub fn change_sole<C: Unseen<T>>(&mut self, change: &C)
        ensures { self.new ≡ self.old }
    {
        if let Some(value) = Arc::get_mut(&mut self.value) {
            change.change(value);
        }
    }
}

impl<T> Deref for Shared<T> {
    type Target = T;

    ghost use Rattle.std.specs.Prelude.{◌≡◌};

    ghost deref_gives = { λ shared value. value ≡ shared };

    fn deref(&self) -> &T
        ensures { result.now ≡ self.now }
    {
        &self.value
    }
}

impl<T: FromNodeIn + Drop> FromNodeIn for Shared<T> {
    ghost at = { T.at };

    fn from_node_in(alloc: Global, node: &Node) -> Result<Shared<T>, FieldFault> {
        let value = T::from_node_in(alloc, node)?;
        Ok(Shared::new(alloc, value)?)
    }
}

impl<T: Drop> TryCopy for Shared<T> {
    fn copy(&self, _alloc: Global) -> Result<Shared<T>, AllocError> {
        self.share()
    }
}

impl<T: Same + Drop> Same for Shared<T> {
    fn is_same(&self, other: &Shared<T>) -> bool {
        (**self).is_same(&**other)
    }
}
