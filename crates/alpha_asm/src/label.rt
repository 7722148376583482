ghost use Rattle.std.specs.Prelude.{◌≡◌, length};

use crate::place::LabelLocation;
use alpha_names::Names;

/// The labels that a source defines. Each has a number from 0, by which it is found without its name.
#[derive(Drop)]
pub struct Labels<'a> {
    /// Their names.
    pub(crate) names: Names<'a>,
    /// Where the label with each number is defined.
    pub(crate) locations: Vec<LabelLocation>,
    ghost alike: { length locations.items ≡ length names },
}
