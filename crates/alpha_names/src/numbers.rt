ghost use Rattle.std.specs.Prelude.{◌≡◌, ℕ, List, Bool, None, is_none, true, false, IfOk, OnErr};
ghost use Rattle.alpha_names.specs.Finder.{number_in, Grows, Keeps};

use crate::crowd::Crowd;
use crate::hash::quick_hash;
use crate::source::Source;
use crate::tree::{Look, Tree};
use std::alloc::{AllocError, Global};

/// Numbers of names, without the names: a [`Source`] tells which number is that of a name. A number takes 16 bytes, and
/// so does each lower one that no name has.
#[derive(Drop)]
pub struct Numbers<'a> {
    tree: Tree,
    crowd: Crowd<'a>,
}

impl<'a> Numbers<'a> {
    /// No numbers: none of any name.
    pub fn empty(alloc: Global) -> Numbers<'a>
        ensures { (is_right : ℕ → Bool) → (name : List ℕ) → number_in result is_right name ≡ None }
    {
        Numbers {
            tree: Tree::empty(alloc),
            crowd: Crowd::empty(alloc),
        }
    }

    /// The number of a name, of those that the source tells.
    pub fn number<S: Source>(&self, source: &S, name: &[u8]) -> Option<usize>
        ensures { result ≡ number_in self.now (S.named source.now name.now) name.now }
    {
        match self.tree.seek(quick_hash(name)) {
            Look::Free(_) => None,
            Look::Taken(number) if source.is_named(number, name) => Some(number),
            _ => self.crowd.number(source, name),
        }
    }

    /// Gives a name a number, unless it has one of those that the source tells, and answers whether it did.
    pub fn add<S: Source>(
        &mut self,
        source: &S,
        name: &'a [u8],
        number: usize,
    ) -> Result<bool, AllocError>
        ensures value { IfOk result (λ added. added
            ≡ is_none (number_in self.old (S.named source.now name.entry.now) name.entry.now)) }
        ensures ok { IfOk result (λ added. added ≡ true →
            Grows (number_in self.old) (number_in self.new) name.entry.now number) }
        ensures again { IfOk result (λ added. added ≡ false →
            Keeps (number_in self.old) (number_in self.new)) }
        ensures same { OnErr result (Keeps (number_in self.old) (number_in self.new)) }
    {
        let hash = quick_hash(name);
        match self.tree.seek(hash) {
            Look::Free(place) => {
                self.tree.fill(place, hash, number)?;
                Ok(true)
            }
            Look::Taken(taken) if source.is_named(taken, name) => Ok(false),
            _ => self.crowd.add(source, name, number),
        }
    }
}
