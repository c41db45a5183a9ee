ghost use Rattle.std.specs.Prelude.{◌≡◌, ℕ, List};
ghost use Rattle.language.specs.Results.{Results};

use std::marker::Model;

/// A list of words.
#[derive(Debug, Drop)]
pub struct Numbers {
    items: Vec<u32>,
}

impl Model for Numbers {
    ghost Value = { List ℕ };

    ghost view = { λ n. n.items.items };
}

impl Numbers {
    /// These words, in their order.
    pub fn new(items: Vec<u32>) -> Self
        ensures { result ≡ items.items }
    {
        Numbers { items }
    }

    /// The words.
    pub fn as_slice(&self) -> &[u32]
        ensures { result.now ≡ self.now }
    {
        self.items.as_slice()
    }
}

/// An argument: a word (a bool is 0 or 1), or the words of an array.
#[derive(Debug, Drop)]
pub enum Arg {
    Word(u32),
    Array(Numbers),
}

/// The arguments of a call, in parameter order.
#[derive(Debug, Drop)]
pub struct Args {
    items: Vec<Arg>,
}

impl Model for Args {
    ghost use Rattle.std.specs.Prelude.{List};
    ghost use Rattle.language.specs.declared.values.Arg.{Arg};

    ghost Value = { List Arg };

    ghost view = { λ a. a.items.items };
}

impl Args {
    /// These arguments, in their order.
    pub fn new(items: Vec<Arg>) -> Self
        ensures { result ≡ items.items }
    {
        Args { items }
    }

    /// The arguments.
    pub fn as_slice(&self) -> &[Arg]
        ensures { result.now ≡ self.now }
    {
        self.items.as_slice()
    }
}

/// What a program gives.
#[derive(Debug, Drop)]
pub struct Outcome {
    returned: Option<u32>,
    arrays: Vec<Numbers>,
}

impl Model for Outcome {
    ghost Value = { Results };

    ghost view = { λ o. record { returned = o.returned; arrays = o.arrays.items } };
}

impl Outcome {
    /// A returned word, where there is a result, and the final words of each `mut` array.
    pub fn new(returned: Option<u32>, arrays: Vec<Numbers>) -> Self
        ensures returned { result.returned ≡ returned }
        ensures arrays { result.arrays ≡ arrays.items }
    {
        Outcome { returned, arrays }
    }

    /// The word that was returned, where there is a result.
    pub fn returned(&self) -> Option<u32>
        ensures { result ≡ self.now.returned }
    {
        self.returned
    }

    /// The final words of each `mut` array, in parameter order.
    pub fn arrays(&self) -> &[Numbers]
        ensures { result.now ≡ self.now.arrays }
    {
        self.arrays.as_slice()
    }
}
