ghost use Rattle.std.specs.Prelude.{◌≡◌, ◌++◌, ◌∷◌, [], List, ℕ, Some, is_none, option_map, map, position, slice_get};
ghost use Rattle.std.specs.Prelude.{length, IfOk, IfSome, OnErr, if◌then◌else◌};
ghost use Rattle.std.specs.Str.{bytes_eq};

use crate::numbers::Numbers;
use std::alloc::{AllocError, Global};
use std::marker::Model;

/// Names, each once. The number of a name is how many were added before it.
///
/// A look-up computes a hash and searches a tree for it. Where that finds another name, or too many slots, it computes
/// a second hash and searches a second tree; where that does so too, it searches a map in the order of names. So
/// whatever the names are, it takes the time of reading the name a few times, of going over 20 slots of each tree, and
/// of comparing it with some of the names in the map, a number that is logarithmic in how many there are.
#[derive(Drop)]
pub struct Names<'a> {
    names: Vec<&'a [u8]>,
    numbers: Numbers<'a>,
}

// The name at a place.
fn name_at<'a>(names: &[&'a [u8]], number: usize) -> Option<&'a [u8]>
    ensures { result ≡ slice_get names.now number }
{
    names.get(number).copied()
}

impl<'a> Model for Names<'a> {
    ghost use Rattle.std.specs.Prelude.{ℕ, List};

    ghost Value = { List (List ℕ) };

    ghost use Rattle.alpha_names.specs.Names.{names_of, AreFound};

    ghost view = { names_of };

    ghost invariant = { AreFound };
}

impl<'a> Names<'a> {
    /// No names.
    pub fn empty(alloc: Global) -> Names<'a>
        ensures { result ≡ [] }
    {
        Names {
            names: Vec::new(alloc),
            numbers: Numbers::empty(alloc),
        }
    }

    /// How many names.
    pub fn len(&self) -> usize
        ensures { result ≡ length self.now }
    {
        self.names.len()
    }

    /// The name with a number.
    pub fn get(&self, number: usize) -> Option<&'a [u8]>
        ensures value { option_map (λ n. n.now) result ≡ slice_get self.now number }
        ensures single { IfSome result (λ n. position (bytes_eq n.now) self.now ≡ Some number) }
    {
        name_at(&self.names, number)
    }

    /// The names, in the order of their numbers.
    pub fn names(&self) -> &[&'a [u8]]
        ensures { map (λ n. n.now) result.now ≡ self.now }
    {
        &self.names
    }

    /// The number of a name.
    pub fn number(&self, name: &[u8]) -> Option<usize>
        ensures { result ≡ position (bytes_eq name.now) self.now }
    {
        self.numbers.number(&self.names, name)
    }

    /// Adds a name, unless it is there, and answers whether it did.
    pub fn add(&mut self, name: &'a [u8]) -> Result<bool, AllocError>
        ensures value { IfOk result (λ added. added
            ≡ is_none (position (bytes_eq name.entry.now) self.old)) }
        ensures names { IfOk result (λ added. self.new
            ≡ (if added then self.old ++ name.entry.now ∷ [] else self.old)) }
        ensures same { OnErr result (self.new ≡ self.old) }
    {
        if !self.numbers.add(&self.names, name, self.names.len())? {
            return Ok(false);
        }
        self.names.push(name)?;
        Ok(true)
    }
}
