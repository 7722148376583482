//! Modules that are read from their bytes.

ghost use Rattle.std.specs.Prelude.{◌≡◌, ◌≢◌, ◌≤◌, map, Some, IfOk, IfErr};
ghost use Rattle.alpha_table.specs.Decoded.{decoded};
ghost use Rattle.alpha_table.specs.Encoded.{encoded};
ghost use Rattle.alpha_link.specs.declared.fault.ModuleFault.TheVariants as faults;
ghost use Rattle.alpha_link.specs.Reading.{Gives, taken};
ghost use Rattle.alpha_link.specs.Parts.{IsModule};
ghost use Rattle.alpha_link.specs.Spelled.{words_at, fault_of_words, module_at, spelling};

use crate::ModuleFault;
use crate::header::read_header;
use crate::module::Module;
use crate::relocations::read_relocations;
use crate::symbols::read_symbols;
use alpha_image::{ImageFault, read_words};
use alpha_table::Insn;
use alpha_words::Level;
use std::alloc::Global;

/// So many bytes, of `total` ones in all, and those behind them.
pub(crate) fn take_bytes(
    total: u64,
    count: usize,
    bytes: &[u8],
) -> Result<(&[u8], &[u8]), ModuleFault>
    ensures value { Gives (λ x. (x.0.now, x.1.now)) result (taken total count bytes.now) }
    ensures memory { IfErr result (λ fault. fault ≢ faults.NoMemory) }
{
    if bytes.len() < count {
        return Err(ModuleFault::Cut(total));
    }
    Ok(bytes.split_at(count))
}

// The instructions of so many code words, and the bytes behind them.
fn read_code(
    alloc: Global,
    total: u64,
    count: u32,
    bytes: &[u8],
) -> Result<(Vec<Insn>, &[u8]), ModuleFault>
    requires { count ≤ 262144 }
    ensures value { Gives (λ x. (map encoded x.0.items, x.1.now)) result
        (words_at total count bytes.now) }
    ensures known { IfOk result (λ x. map decoded (map encoded x.0.items) ≡ map Some x.0.items) }
{
    let size = 4 * count as usize;
    let (code, behind) = bytes.split_at(size.min(bytes.len()));
    match read_words(alloc, Level::One, code) {
        Ok(insns) => {
            if code.len() < size {
                return Err(ModuleFault::Cut(total));
            }
            Ok((insns, behind))
        }
        Err(fault) => Err(fault_of_words(fault)),
    }
}

// The fault of code words, of which none but a bad one and want of memory can be.
fn fault_of_words(fault: ImageFault) -> ModuleFault
    ensures { result ≡ fault_of_words fault }
{
    match fault {
        ImageFault::BadWord(place, _) => ModuleFault::Word(place),
        _ => ModuleFault::NoMemory,
    }
}

/// The module that the bytes spell.
///
/// # Errors
///
/// The first fault of the bytes, in the order that [`ModuleFault`] has. `NoMemory` may come in place of
/// any answer.
pub fn read_module<'a>(alloc: Global, bytes: &'a [u8]) -> Result<Module<'a>, ModuleFault>
    ensures value { Gives (λ m. m) result (module_at bytes.now) }
    ensures good { IfOk result IsModule }
    ensures spelled { IfOk result (λ m. bytes.now ≡ spelling m) }
{
    let total = bytes.len() as u64;
    let (sizes, behind) = read_header(bytes)?;
    let (insns, behind) = read_code(alloc, total, sizes.words, behind)?;
    let (data, behind) = take_bytes(total, sizes.filled as usize, behind)?;
    let (symbols, behind) = read_symbols(alloc, total, &sizes, behind)?;
    let (relocations, behind) = read_relocations(alloc, total, &sizes, &insns, data, behind)?;
    if !behind.is_empty() {
        return Err(ModuleFault::Rest(total.saturating_sub(behind.len() as u64)));
    }
    Ok(Module {
        insns,
        bytes: Vec::from_slice(alloc, data)?,
        zeroed: sizes.zeroed,
        symbols,
        relocations,
    })
}
