//! Modules: code and data that are assembled apart, judged apart and linked later.
//!
//! A module has its code words, its data bytes, a number of zeroed bytes behind them, symbols and
//! relocations. A symbol is a label that the module defines or names. A relocation is a place that takes
//! the address of a symbol when modules are linked. A module stands for exactly one list of bytes, in
//! which all numbers are little-endian:
//!
//! | Offset | Field |
//! |---|---|
//! | 0 | the 8 bytes `ALPHAOB1` |
//! | 8, 12, 16 | code words, data bytes and zeroed bytes, of 32 bits each |
//! | 20, 24 | symbols and relocations, of 32 bits each |
//! | 28 | the code words, the data bytes, the symbols, the relocations |
//!
//! A symbol is its section (0 code, 1 data, 2 undefined), a byte; the length of its name, of 16 bits; its
//! offset, of 32 bits; its name. A relocation is its kind (0 a branch, 1 an LDAH, 2 an LDA, 3 a quadword of
//! data), a byte; its offset and the number of its symbol, of 32 bits each; its addend, of 32 bits with
//! the sign.
//!
//! - Names rise, byte by byte, and each is a label of at most 1,024 bytes. An offset of the code is a
//!   multiple of 4 and at most the code's length, one of the data at most that of the data and zeroed
//!   bytes together, and an undefined symbol has offset 0.
//! - The relocations of the code come first, then those of the data. Within each of the two groups
//!   offsets rise. What a relocation stands at has displacement 0, or is eight zero bytes, which no other
//!   relocation shares. The addend lies from -(2^31 - 1) to 2^31 - 1.
//!
//! [`Module`] is a good module, whose parts a clause sees; [`Module::symbols`] and [`Module::relocations`] list
//! what it defines and needs. The code is held as instructions, and the names of symbols stand in the bytes or
//! the source that it was made of. [`ModuleFault`] says why bytes are none.
//!
//! The laws, each with the call that carries it:
//!
//! - [`make_module`] gives the module that a source makes, or the first refusal.
//! - [`read_module`] gives the module that bytes spell, or their first fault.
//! - [`module_bytes`] gives the spelling of a module.
//! - [`link`] gives the image that modules link to, or why they link to none, a [`LinkFault`]; which image
//!   that is says `specs/Linked.antt`.
//! - [`laws_of_modules`]: what is read is good and the bytes are its spelling, and each good module is
//!   read back from its spelling.
//! - [`verdict`] is the verdict on a module's code: that no place is broken, or the least broken place.
//! - [`laws_of_joined_code`]: code that consists of accepted parts is accepted, and so is code whose words
//!   have the columns of accepted code.
//! - [`laws_of_linked_code`]: where the code of each module is accepted, the image that the modules link to
//!   is accepted.
//!
//! `module.rt` has what a module is, `fault.rt` why there is none or no image of some, and `laws.rt` the laws.
//! `header.rt` has the sizes at the front, `symbol.rt` and `relocation.rt` have what symbols and
//! relocations are, `symbol_list.rt` has the symbols of a module, `symbols.rt` and `relocations.rt` read and write
//! them, `number.rt` has numbers of two bytes; `read.rt` and `write.rt` are the ways in and out, and
//! `module_verdict.rt` has the verdict.
//! A module of a source is `source_module.rt`. `labels.rt` numbers the labels that the source defines or names, and
//! `source_relocations.rt` makes relocations by these numbers; `keyed.rt` sorts the labels, which `radix.rt`
//! puts in the order of their keys first where they stand in many runs; and `source_symbols.rt` makes their
//! symbols, and the ranks that go into the relocations.
//!
//! `located.rt` says where each module stands among those that are linked. The symbols of all of them stand
//! in one row, `row.rt`, which `global_symbols.rt` reads; `table.rt` has the table of the numbers by which the names
//! that they define are found, and `names.rt` enters these there, in which the names of undefined symbols are
//! then looked up. `addresses.rt` has the addresses of a module's symbols. `linker.rt` has the refusals in
//! their order, and `output.rt` copies the modules into one buffer of instructions and one of data bytes, and
//! puts in there what each relocation asks for. The code of an image begins at [`alpha_asm::CODE_BASE`], as
//! that of a source without a `.codebase`.
//!
//! `specs/Reading.antt` says how bytes are read from the front, `specs/Header.antt`, `specs/Symbols.antt`
//! and `specs/Relocations.antt` which items there are and which are good, `specs/Parts.antt` what a module
//! is, `specs/Spelled.antt` its bytes both ways, `specs/Module.antt` what a [`Module`] holds, and `specs/Listed.antt`
//! what a [`SymbolList`] does;
//! `specs/Made.antt` has the module that a source makes, `specs/Numbered.antt` what is made by the numbers
//! of labels on the way, `specs/SortedNames.antt` names in order, `specs/NameKeys.antt` the keys that they are
//! sorted by, and `specs/Digits.antt` the digits of these, counted;
//! `specs/Bytes.antt` has numbers of two bytes, `specs/Unlinked.antt` what is known of a source that was
//! read, and `specs/Alike.antt` says which words no condition of a trap shadow tells apart. `specs/GlobalSymbols.antt`,
//! `specs/Names.antt`, `specs/Addresses.antt` and `specs/Output.antt` say what the linker holds on its way.
#![tactic(auto)]

mod addresses;
mod fault;
mod global_symbols;
mod header;
mod keyed;
mod labels;
mod laws;
mod linker;
mod located;
mod module;
mod module_verdict;
mod names;
mod number;
mod output;
mod radix;
mod read;
mod relocation;
mod relocations;
mod row;
mod source_module;
mod source_relocations;
mod source_symbols;
mod symbol;
mod symbol_list;
mod symbols;
mod table;
mod write;

pub use alpha_asm::{RelocField, RelocationKind};
pub use fault::{LinkFault, ModuleFault};
pub use laws::{laws_of_joined_code, laws_of_linked_code, laws_of_modules};
pub use linker::link;
pub use module::Module;
pub use module_verdict::verdict;
pub use read::read_module;
pub use relocation::Relocation;
pub use source_module::make_module;
pub use symbol::{Symbol, SymbolSection};
pub use symbol_list::SymbolList;
pub use write::module_bytes;
