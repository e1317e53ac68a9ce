// A list that is made of a `Vec` and lends its items as a slice.
ghost use Rattle.std.specs.Prelude.{◌≡◌};

use std::marker::Model;

/// Items in order. Contracts see it as the list of its items, so two of them with equal lists are equal.
#[derive(Debug, Drop)]
pub struct Listed<T> {
    inner: Vec<T>,
}

impl<T> Model for Listed<T> {
    ghost use Rattle.std.specs.Prelude.{List};
    ghost use Rattle.std.specs.Coded.{coded_list};

    ghost Value = { List T };

    ghost coded = { coded_list T.code };

    ghost view = { λ l. l.inner.items };
}

impl<T> Listed<T> {
    /// The items of a `Vec`, in its order. Takes no memory.
    pub fn of(items: Vec<T>) -> Listed<T>
        ensures { result ≡ items.items }
    {
        Listed { inner: items }
    }

    /// The items as a slice.
    pub fn items(&self) -> &[T]
        ensures { result.now ≡ self.now }
    {
        &self.inner
    }
}
