//! Room for one more in a list.

ghost use Rattle.std.specs.Prelude.{◌≡◌, ◌<◌, OnOk, vec_capacity, vec_len};

use crate::names::FEW;
use std::alloc::AllocError;

/// Makes room for one more: for no other while there are few, since nearly all lists stay so.
pub(crate) fn make_room<T>(list: &mut Vec<T>) -> Result<(), AllocError>
    ensures same { list.new.items ≡ list.old.items }
    ensures room { OnOk result (vec_len list.new < vec_capacity list.new) }
{
    if list.len() < FEW {
        list.reserve_exact(1)
    } else {
        list.reserve(1)
    }
}
