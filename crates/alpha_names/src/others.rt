ghost use Rattle.std.specs.Prelude.{◌≡◌, is_none, true, false, IfOk, OnErr};
ghost use Rattle.alpha_names.specs.Finder.{other_number, Grows, Keeps};

use crate::source::Source;
use std::alloc::{AllocError, Global};
use std::collections::BTreeMap;

/// Numbers of names that find no slot by either hash, by the order of names.
#[derive(Drop)]
pub(crate) struct Others<'a> {
    numbers: BTreeMap<&'a [u8], usize>,
}

impl<'a> Others<'a> {
    /// No numbers.
    pub(crate) fn empty(alloc: Global) -> Others<'a> {
        Others {
            numbers: BTreeMap::new(alloc),
        }
    }

    /// The number of a name.
    pub(crate) fn number<S: Source>(&self, source: &S, name: &[u8]) -> Option<usize>
        ensures { result ≡ other_number self.now (S.named source.now name.now) name.now }
    {
        match self.numbers.get(name) {
            Some(number) if source.is_named(*number, name) => Some(*number),
            _ => None,
        }
    }

    /// Gives a name a number, unless it has one, and answers whether it did.
    pub(crate) fn add<S: Source>(
        &mut self,
        source: &S,
        name: &'a [u8],
        number: usize,
    ) -> Result<bool, AllocError>
        ensures value { IfOk result (λ added. added
            ≡ is_none (other_number self.old (S.named source.now name.entry.now) name.entry.now)) }
        ensures ok { IfOk result (λ added. added ≡ true →
            Grows (other_number self.old) (other_number self.new) name.entry.now number) }
        ensures again { IfOk result (λ added. added ≡ false →
            Keeps (other_number self.old) (other_number self.new)) }
        ensures same { OnErr result (Keeps (other_number self.old) (other_number self.new)) }
    {
        if self.number(source, name).is_some() {
            return Ok(false);
        }
        self.numbers.insert(name, number)?;
        Ok(true)
    }
}
