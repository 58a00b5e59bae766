// A number from FIRST up to END, as routers, lines, FECs and labels have.
ghost use Rattle.std.specs.Prelude.{◌≡◌, ℕ, ◌<◌, ◌≤◌, Bool, cond, ◌&&◌, nat_le, nat_lt, Some, None};
ghost use Rattle.model.specs.Tables.{first_label};

use std::marker::Model;

#[derive(Clone, Copy, Debug, PartialEq, Eq)]
pub struct Number<const FIRST: usize, const END: usize> {
    number: usize,
}

impl<const FIRST: usize, const END: usize> Model for Number<FIRST, END> {
    ghost Value = { ℕ };

    ghost view = { λ n. n.number };

    ghost invariant = { λ n. (FIRST ≤ n.number) × (n.number < END) };

    ghost inverse = { λ n. record { number = n } };
}

pub type Router = Number<0, 16>;

pub type Line = Number<0, 48>;

pub type FecNumber = Number<0, 32>;

pub type Label = Number<16, 80>;

impl<const FIRST: usize, const END: usize> Number<FIRST, END> {
    // The number, if it is in range. No TryFrom: that needs an error type which says nothing.
    pub fn new(number: usize) -> Option<Self>
        ensures { result ≡ cond (nat_le FIRST number && nat_lt number END) (Some number) None }
    {
        if number >= FIRST && number < END {
            Some(Number { number })
        } else {
            None
        }
    }

    pub fn number(self) -> usize
        ensures same { result ≡ self.entry }
        ensures least { FIRST ≤ result }
        ensures most { result < END }
    {
        self.number
    }
}

impl Label {
    // The smallest label that passes a test.
    pub fn smallest<F: Fn(Label) -> bool>(test: F) -> Option<Label>
        requires { F.IsAlwaysCallable test }
        ensures { (p : ℕ → Bool) → ((l : ℕ) → 16 ≤ l → l < 80 → (b : Bool) → F.post test l b → b ≡ p l) → result ≡ first_label p }
    {
        // by `for`: as a chain of `filter_map` and `find` over the range it was tried, and its promise was not proved
        for number in 16..80 {
            let label = Number { number };
            if test(label) {
                return Some(label);
            }
        }
        None
    }
}
