ghost use Rattle.std.specs.Prelude.{◌≡◌, is_some, length, slice_get, IfOk, OnOk};
ghost use Rattle.std.specs.Option.{option_map};
ghost use Rattle.language.specs.Types.{callee, declared, declared_at, empty, found, variable};
ghost use Rattle.language.specs.scopes.Shortened.{shortened};

use crate::names::Names;
use crate::{Callee, Declared, Place, Profile, VariableType};
use std::alloc::{AllocError, Global};
use std::marker::Model;

/// What a name stands for, and where it is declared.
#[derive(Clone, Copy)]
struct ScopeEntry {
    what: Declared,
    place: Place,
}

/// The observer from whom secrets are kept, and the names that may be used at a point.
#[derive(Drop)]
pub struct Scope<'a> {
    profile: Profile,
    names: Names<'a, ScopeEntry>,
}

impl<'a> Model for Scope<'a> {
    ghost use Rattle.language.specs.Types.{Scope as ScopeOfNames};
    ghost use Rattle.language.specs.declared.scopes.scope.ScopeEntry.{ScopeEntry};
    ghost use Rattle.language.specs.names.Scope.{parts};

    ghost Value = { ScopeOfNames };

    ghost view = { λ scope. record {
      profile = scope.profile;
      names = parts (λ (entry : ScopeEntry). entry.what) scope.names;
      places = parts (λ (entry : ScopeEntry). entry.place) scope.names;
    } };
}

impl<'a> Scope<'a> {
    /// Where nothing is declared.
    pub fn new(alloc: Global, profile: Profile) -> Self
        ensures { result ≡ empty profile }
    {
        Scope {
            profile,
            names: Names::new(alloc),
        }
    }

    /// The observer.
    pub fn profile(&self) -> Profile
        ensures { result ≡ self.now.profile }
    {
        self.profile
    }

    /// How many names there are.
    pub fn len(&self) -> usize
        ensures names { result ≡ length self.now.names }
        ensures places { result ≡ length self.now.places }
    {
        self.names.len()
    }

    /// Forgets all names but the earliest so many: the end of a scope.
    pub fn truncate(&mut self, len: usize)
        ensures { self.new ≡ shortened len self.old }
    {
        self.names.truncate(len);
    }

    /// What a name stands for, where it was declared.
    pub fn find(&self, name: &str) -> Option<Declared>
        ensures { result ≡ found self.now name.now }
    {
        match self.names.find(name) {
            Some(entry) => Some(entry.what),
            None => None,
        }
    }

    /// The name that so many come before, and what it stands for.
    pub fn get(&self, before: usize) -> Option<(&'a str, Declared)>
        ensures { option_map (λ known. (known.0.now, known.1)) result ≡ slice_get self.now.names before }
    {
        match self.names.get(before) {
            Some((name, entry)) => Some((name, entry.what)),
            None => None,
        }
    }

    /// Where a name is declared; one that is not is said to be where a source begins.
    pub fn place(&self, name: &str) -> Place
        ensures { result ≡ declared_at self.now name.now }
    {
        match self.names.find(name) {
            Some(entry) => entry.place,
            None => Place::ORIGIN,
        }
    }

    /// The variable that a name stands for, where it is one.
    pub fn variable(&self, name: &str) -> Option<VariableType>
        ensures { result ≡ variable (found self.now name.now) }
    {
        match self.find(name) {
            Some(Declared::Variable(variable)) => Some(variable),
            Some(Declared::Procedure(_)) | None => None,
        }
    }

    /// The procedure that a name stands for, where it is one.
    pub fn callee(&self, name: &str) -> Option<Callee>
        ensures { result ≡ callee (found self.now name.now) }
    {
        match self.find(name) {
            Some(Declared::Procedure(callee)) => Some(callee),
            Some(Declared::Variable(_)) | None => None,
        }
    }

    /// Declares a name at a place, and answers whether it was taken: the first declaration of a name keeps it.
    pub fn declare(
        &mut self,
        place: Place,
        name: &'a str,
        what: Declared,
    ) -> Result<bool, AllocError>
        ensures taken { IfOk result (λ taken. taken ≡ is_some (found self.old name.now)) }
        ensures ok { OnOk result (self.new ≡ declared self.old place name.now what) }
    {
        self.names.declare(name, ScopeEntry { what, place })
    }
}
