ghost use Rattle.std.specs.Prelude.{◌≡◌, ℕ, true, false, List, Some, None, is_some, map, slice_get, IfOk, IfSome};
ghost use Rattle.std.specs.Prelude.{if◌then◌else◌};
ghost use Rattle.std.specs.Option.{option_and_then};
ghost use Rattle.std.specs.Str.{bytes_eq};
ghost use Rattle.alpha_asm.specs.Labels.{location_named, label_names, are_among};

use crate::label::Labels;
use crate::place::LabelLocation;
use alpha_names::Names;
use std::alloc::{AllocError, Global};

// The names of labels.
fn copy_names<'a>(alloc: Global, names: &[&'a [u8]]) -> Result<Vec<&'a [u8]>, AllocError>
    ensures { IfOk result (λ all. all.items ≡ names.now) }
{
    names.iter().copied().collect(alloc)
}

impl<'a> Labels<'a> {
    /// No labels.
    pub(crate) fn empty(alloc: Global) -> Labels<'a>
        ensures { (name : List ℕ) → location_named result name ≡ None }
    {
        Labels {
            names: Names::empty(alloc),
            locations: Vec::new(alloc),
        }
    }

    /// Where a label is defined.
    pub fn location(&self, name: &'a [u8]) -> Option<LabelLocation>
        ensures { result ≡ location_named self.now name.now }
    {
        let number = self.names.number(name)?;
        self.locations.get(number).copied()
    }

    /// The number of a label, `None` exactly where it isn't defined.
    pub fn number(&self, name: &'a [u8]) -> Option<usize>
        ensures defined { is_some result ≡ is_some (location_named self.now name.now) }
        ensures number { IfSome result (λ number.
            slice_get (label_names self.now) number ≡ Some name.now) }
    {
        self.names.number(name)
    }

    /// Where the label with a number is defined, `None` exactly where none has it.
    pub fn location_of_number(&self, number: usize) -> Option<LabelLocation>
        ensures { result
            ≡ option_and_then (location_named self.now) (slice_get (label_names self.now) number) }
    {
        let _name = self.names.get(number)?;
        let spot = self.locations.get(number)?;
        Some(*spot)
    }

    /// The names of all labels, in the order of their numbers.
    pub fn names(&self, alloc: Global) -> Result<Vec<&'a [u8]>, AllocError>
        ensures names { IfOk result (λ names. map (λ n. n.now) names.items ≡ label_names self.now) }
        ensures defined { IfOk result (λ names. (name : List ℕ) →
            are_among names.items name ≡ is_some (location_named self.now name)) }
    {
        copy_names(alloc, self.names.names())
    }

    /// Defines a label, unless it was defined before, and answers whether it was.
    pub(crate) fn define(
        &mut self,
        name: &'a [u8],
        location: LabelLocation,
    ) -> Result<bool, AllocError>
        ensures value { IfOk result (λ again. again
            ≡ is_some (location_named self.old name.entry.now)) }
        ensures defined { IfOk result (λ again. again ≡ false → (other : List ℕ)
            → location_named self.new other
            ≡ (if bytes_eq name.entry.now other then Some location else location_named self.old other)) }
    {
        self.locations.push(location)?;
        match self.names.add(name) {
            Ok(true) => Ok(false),
            Ok(false) => {
                self.locations.pop();
                Ok(true)
            }
            Err(fault) => {
                self.locations.pop();
                Err(fault)
            }
        }
    }
}
