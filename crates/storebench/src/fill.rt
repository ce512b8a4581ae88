//! How full a store is.

ghost use Rattle.std.specs.Prelude.{◌≡◌, length};

use credential::Store;
use std::fmt;

/// How many records a store lists, and how many it can.
#[derive(Clone, Copy)]
pub(crate) struct Fill {
    count: usize,
    capacity: usize,
}

impl Fill {
    /// How full a store is.
    pub(crate) fn of<S: Store>(store: &S) -> Fill
        ensures count { result.count ≡ length (S.Store.records store.now) }
        ensures capacity { result.capacity ≡ S.Store.room store.now }
    {
        Fill {
            count: store.count(),
            capacity: store.capacity(),
        }
    }
}

impl fmt::Display for Fill {
    ghost use Rattle.std.specs.Prelude.{Some};
    ghost use Rattle.storebench.specs.Text.{fill_text};

    ghost output = { λ fill. Some (fill_text fill.count fill.capacity) };

    fn fmt<W: fmt::Write>(&self, f: &mut fmt::Formatter<W>) -> fmt::Result {
        write!(f, "{} of {}", self.count, self.capacity)
    }
}
