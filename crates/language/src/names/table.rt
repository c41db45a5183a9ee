ghost use Rattle.std.specs.Prelude.{◌≡◌, [], is_some, length, slice_get, take, IfOk, OnOk, OnErr};
ghost use Rattle.std.specs.Option.{option_map};
ghost use Rattle.language.specs.names.Scope.{found, declared};

use indexmap::IndexMap;
use std::alloc::{AllocError, Global};
use std::marker::Model;

/// Names and what they stand for, the earliest first. A contract sees the list of these pairs.
#[derive(Drop)]
pub struct Names<'a, V> {
    map: IndexMap<&'a str, V>,
}

impl<'a, V> Model for Names<'a, V> {
    ghost use Rattle.std.specs.Prelude.{ℕ, List};
    ghost use Rattle.language.specs.names.Scope.{scope_of};

    ghost Value = { List (List ℕ × V) };

    ghost view = { λ names. scope_of (λ key. key.now) names.map.entries };
}

impl<'a, V: Copy> Names<'a, V> {
    /// No names.
    pub fn new(alloc: Global) -> Self
        ensures { result ≡ [] }
    {
        Names {
            map: IndexMap::new(alloc),
        }
    }

    /// How many names there are.
    pub fn len(&self) -> usize
        ensures { result ≡ length self.now }
    {
        self.map.len()
    }

    /// Forgets all names but the earliest so many: the end of a scope.
    pub fn truncate(&mut self, len: usize)
        ensures { self.new ≡ take len self.old }
    {
        self.map.truncate(len);
    }

    /// What a name stands for, where it was declared.
    pub fn find(&self, name: &str) -> Option<V>
        ensures { result ≡ found self.now name.now }
    {
        self.map.get(name).copied()
    }

    /// The name that so many come before, and what it stands for.
    pub fn get(&self, before: usize) -> Option<(&'a str, V)>
        ensures { option_map (λ entry. (entry.0.now, entry.1)) result ≡ slice_get self.now before }
    {
        match self.map.get_index(before) {
            Some((name, what)) => Some((*name, *what)),
            None => None,
        }
    }

    /// Declares a name, and answers whether it was taken: the first declaration of a name keeps it.
    pub fn declare(&mut self, name: &'a str, what: V) -> Result<bool, AllocError>
        ensures taken { IfOk result (λ taken. taken ≡ is_some (found self.old name.now)) }
        ensures ok { OnOk result (self.new ≡ declared self.old name.now what) }
        ensures err { OnErr result (self.new ≡ self.old) }
    {
        if self.find(name).is_some() {
            return Ok(true);
        }
        self.map.insert(name, what)?;
        Ok(false)
    }
}
