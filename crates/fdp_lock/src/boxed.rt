ghost use Rattle.std.specs.Prelude.{◌≡◌, IfOk, IfErr};

use fdp_base::Recorded;
use std::alloc::{AllocFailed, Global};
use std::marker::Model;

/// A value on the heap, so that a turn moves a pointer. In a clause it is the value.
#[derive(Drop)]
pub struct Boxed<V> {
    pub value: Box<V>,
}

impl<V> Model for Boxed<V> {
    ghost Value = { V };

    ghost view = { λ b. b.value.value };
}

impl<V> Boxed<V> {
    /// Puts a value on the heap. Where there is no memory the value comes back.
    pub fn new(alloc: Global, value: V) -> Result<Boxed<V>, AllocFailed<V>>
        ensures ok { IfOk result (λ boxed. boxed ≡ value) }
        ensures refused { IfErr result (λ refused. refused.value ≡ value) }
    {
        let value = Box::new(alloc, value)?;
        Ok(Boxed { value })
    }

    /// The value, and its memory goes.
    pub fn into_inner(self) -> V
        ensures { result ≡ self }
    {
        let Boxed { value } = self;
        Box::into_inner(value)
    }
}

impl<V: Recorded> Recorded for Boxed<V> {
    type Origin = V::Origin;

    type Item = V::Item;

    ghost origin = { V.origin };

    ghost entries = { V.entries };

    ghost mark = { V.mark };

    fn length(&self) -> u64 {
        self.value.length()
    }
}
