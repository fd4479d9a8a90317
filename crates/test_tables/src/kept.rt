//! Values that tests pass on.

/// A value whose drop is written out: each place that drops it calls that, and isn't proved to drop what the value has.
pub struct Kept<T: Drop>(pub T);

impl<T: Drop> Kept<T> {
    pub fn into_inner(self) -> T {
        let Kept(inner) = self;
        inner
    }
}

impl<T: Drop> Drop for Kept<T> {
    fn drop(self) {
        let Kept(_) = self;
    }
}
