//! The states of a policy.

ghost use Rattle.std.specs.Prelude.{◌≡◌, ◌<◌, ◌∷◌, [], ◌++◌, length, slice_get, slice_set};

use std::marker::Model;

/// The values of a policy's variables, in their order; true and false are 1 and 0. A contract sees their list.
#[derive(Drop)]
pub struct State {
    values: [i32; 16],
    count: u32,
}

impl Model for State {
    ghost use Rattle.std.specs.Prelude.{ℤ, ◌≤◌, List, take};

    ghost Value = { List ℤ };

    ghost view = { λ s. take s.count s.values };

    ghost invariant = { λ s. s.count ≤ 16 };
}

impl State {
    /// The state without variables.
    pub fn empty() -> State
        ensures { result ≡ [] }
    {
        State {
            values: [0; 16],
            count: 0,
        }
    }

    /// An equal state. It takes no memory.
    pub fn copy(&self) -> State
        ensures { result ≡ self.now }
    {
        State {
            values: self.values,
            count: self.count,
        }
    }

    /// The values of the variables, in their order.
    pub fn values(&self) -> &[i32]
        ensures { result.now ≡ self.now }
    {
        &self.values[..self.count as usize]
    }

    /// The value of the variable of this number.
    pub fn get(&self, var: u32) -> Option<i32>
        ensures { result ≡ slice_get self.now var }
    {
        self.values().get(var as usize).copied()
    }

    /// Adds a variable with its value.
    pub fn push(&mut self, value: i32)
        requires { length self.old < 16 }
        ensures { self.new ≡ self.old ++ value ∷ [] }
    {
        self.values[self.count as usize] = value;
        self.count += 1;
    }

    /// Gives the variable of this number a value.
    pub(crate) fn set(&mut self, var: u32, value: i32)
        requires { var < length self.old }
        ensures { self.new ≡ slice_set self.old var value }
    {
        self.values[var as usize] = value;
    }
}
