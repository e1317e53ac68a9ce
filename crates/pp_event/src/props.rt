// The values of the properties.
ghost use Rattle.std.specs.Prelude.{◌≡◌, ◌<◌, ◌≤◌, ◌==◌, [], length, slice_index, slice_set, replicate};

use std::marker::Model;

/// The values of the properties, in the order of their declarations: at most 64. Contracts see it as their list.
/// It takes no memory.
#[derive(Debug, Drop)]
pub struct Props {
    values: [u64; 64],
    count: usize,
}

impl Model for Props {
    ghost use Rattle.std.specs.Prelude.{List, ℕ, take, ◌≤◌};

    ghost Value = { List ℕ };

    ghost view = { λ p. take p.count p.values };

    ghost invariant = { λ p. p.count ≤ 64 };
}

impl Props {
    /// The values of no properties.
    pub fn none() -> Props
        ensures { result ≡ [] }
    {
        Props {
            values: [0; 64],
            count: 0,
        }
    }

    /// So many properties, each 0.
    pub fn zeros(count: u32) -> Props
        requires { count ≤ 64 }
        ensures { result ≡ replicate count 0 }
    {
        Props {
            values: [0; 64],
            count: count as usize,
        }
    }

    /// The same values again.
    pub fn copy(&self) -> Props
        ensures { result ≡ self.now }
    {
        Props {
            values: self.values,
            count: self.count,
        }
    }

    /// How many properties there are.
    pub fn len(&self) -> u32
        ensures value { result ≡ length self.now }
        ensures bound { result ≤ 64 }
    {
        self.count as u32
    }

    /// Whether there is no property.
    pub fn is_empty(&self) -> bool
        ensures { result ≡ (length self.now == 0) }
    {
        self.count == 0
    }

    /// The value of a property, by its place.
    pub fn get(&self, i: u32) -> u64
        requires { i < length self.now }
        ensures { result ≡ slice_index self.now i }
    {
        self.values[i as usize]
    }

    /// Changes the value of a property, by its place.
    pub fn set(&mut self, i: u32, value: u64)
        requires { i < length self.old }
        ensures { self.new ≡ slice_set self.old i value }
    {
        self.values[i as usize] = value;
    }
}
