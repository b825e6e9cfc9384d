// The seat that a lock keeps for itself.
ghost use Rattle.std.specs.Prelude.{◌≡◌};

use atomic_table::Badge;
use std::marker::Model;

/// A badge that threads may share, since none can use it behind a reference.
pub(crate) struct Guard<V> {
    pub(crate) badge: Badge<V>,
}

impl<V> Model for Guard<V> {
    ghost use base.Fml.{ftrue};

    ghost also_owns = { λ _. ftrue };
}

impl<V> Guard<V> {
    pub(crate) fn new(badge: Badge<V>) -> Guard<V>
        ensures { result.badge ≡ badge }
    {
        Guard { badge }
    }

    pub(crate) fn into_badge(self) -> Badge<V>
        ensures { result ≡ self.badge }
    {
        let Guard { badge } = self;
        badge
    }
}

impl<V> Drop for Guard<V> {
    fn drop(self) {
        drop(self.into_badge());
    }
}

unsafe impl<V> Send for Guard<V> {}

unsafe impl<V> Sync for Guard<V> {}
