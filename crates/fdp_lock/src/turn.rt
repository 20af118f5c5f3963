use std::sync::MutexGuard;

/// A turn of a lock, with the value that the lock keeps. Give it back by `GroupLock::leave`.
pub struct Turn<'a, V> {
    pub value: V,
    pub(crate) gate: MutexGuard<'a, ()>,
}
