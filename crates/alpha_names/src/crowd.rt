ghost use Rattle.std.specs.Prelude.{◌≡◌, is_none, true, false, IfOk, OnErr};
ghost use Rattle.alpha_names.specs.Finder.{number_in_crowd, Grows, Keeps};

use crate::hash::slow_hash;
use crate::others::Others;
use crate::source::Source;
use crate::tree::{Look, Tree};
use std::alloc::{AllocError, Global};

/// Numbers of names that find no slot by the quick hash: by another hash, and where they find no slot by that one
/// either, by the order of names.
#[derive(Drop)]
pub(crate) struct Crowd<'a> {
    tree: Tree,
    others: Others<'a>,
}

impl<'a> Crowd<'a> {
    /// No numbers.
    pub(crate) fn empty(alloc: Global) -> Crowd<'a> {
        Crowd {
            tree: Tree::empty(alloc),
            others: Others::empty(alloc),
        }
    }

    /// The number of a name, of those that the source tells.
    pub(crate) fn number<S: Source>(&self, source: &S, name: &[u8]) -> Option<usize>
        ensures { result ≡ number_in_crowd self.now (S.named source.now name.now) name.now }
    {
        match self.tree.seek(slow_hash(name)) {
            Look::Free(_) => None,
            Look::Taken(number) if source.is_named(number, name) => Some(number),
            _ => self.others.number(source, name),
        }
    }

    /// Gives a name a number, unless it has one of those that the source tells, and answers whether it did.
    pub(crate) fn add<S: Source>(
        &mut self,
        source: &S,
        name: &'a [u8],
        number: usize,
    ) -> Result<bool, AllocError>
        ensures value { IfOk result (λ added. added
            ≡ is_none (number_in_crowd self.old (S.named source.now name.entry.now) name.entry.now)) }
        ensures ok { IfOk result (λ added. added ≡ true →
            Grows (number_in_crowd self.old) (number_in_crowd self.new) name.entry.now number) }
        ensures again { IfOk result (λ added. added ≡ false →
            Keeps (number_in_crowd self.old) (number_in_crowd self.new)) }
        ensures same { OnErr result (Keeps (number_in_crowd self.old) (number_in_crowd self.new)) }
    {
        let hash = slow_hash(name);
        match self.tree.seek(hash) {
            Look::Free(place) => {
                self.tree.fill(place, hash, number)?;
                Ok(true)
            }
            Look::Taken(taken) if source.is_named(taken, name) => Ok(false),
            _ => self.others.add(source, name, number),
        }
    }
}
