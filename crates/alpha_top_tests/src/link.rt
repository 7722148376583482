//! Modules as lists of symbols and relocations, and what no module links to.

use alpha_link::{
    LinkFault, RelocField, RelocationKind, SymbolSection, link, make_module, read_module,
};
use std::alloc::AllocError;
use std::test::Fail;

// `start: bsr $26,sum`, `lda $0,1($31)`, `callsys`: `start` is defined and `sum` isn't.
const START: [u8; 75] = [
    0x41, 0x4c, 0x50, 0x48, 0x41, 0x4f, 0x42, 0x31, 0x03, 0x00, 0x00, 0x00, 0x00, 0x00, 0x00, 0x00,
    0x00, 0x00, 0x00, 0x00, 0x02, 0x00, 0x00, 0x00, 0x01, 0x00, 0x00, 0x00, 0x00, 0x00, 0x40, 0xd3,
    0x01, 0x00, 0x1f, 0x20, 0x83, 0x00, 0x00, 0x00, 0x00, 0x05, 0x00, 0x00, 0x00, 0x00, 0x00, 0x73,
    0x74, 0x61, 0x72, 0x74, 0x02, 0x03, 0x00, 0x00, 0x00, 0x00, 0x00, 0x73, 0x75, 0x6d, 0x00, 0x00,
    0x00, 0x00, 0x00, 0x01, 0x00, 0x00, 0x00, 0x00, 0x00, 0x00, 0x00,
];

#[test]
fn a_module_lists_its_symbols_and_relocations(rt: HostRuntime) -> Result<(), Fail> {
    let module = read_module(rt.alloc(), &START)?;
    let symbols = module.symbols();
    if let (Some(start), Some(sum)) = (symbols.get(0), symbols.get(1)) {
        assert_eq!(rt; (start.section, start.offset), (SymbolSection::Code, 0));
        assert_eq!(rt; start.name, b"start".as_slice());
        assert_eq!(rt; (sum.section, sum.offset), (SymbolSection::Undefined, 0));
        assert_eq!(rt; sum.name, b"sum".as_slice());
    }
    if let [branch] = module.relocations() {
        assert_eq!(rt;
            (branch.kind, branch.symbol),
            (RelocationKind::Insn(RelocField::Branch), 1)
        );
        assert_eq!(rt; (branch.offset, branch.addend), (0, 0));
    }
    assert_eq!(rt;
        (module.symbols().len(), module.relocations().len()),
        (2, 1)
    );
    Ok(())
}

// A line with the label of a number and a branch to it.
fn push_line(source: &mut Vec<u8>, number: u32) -> Result<(), AllocError> {
    let name = [
        b'l',
        b'0' + (number / 1000 % 10) as u8,
        b'0' + (number / 100 % 10) as u8,
        b'0' + (number / 10 % 10) as u8,
        b'0' + (number % 10) as u8,
    ];
    source.extend_from_slice(&name)?;
    source.extend_from_slice(b": br $31,")?;
    source.extend_from_slice(&name)?;
    source.extend_from_slice(b"\n")
}

// The numbers below 2,048 come once each, in no order.
#[test]
fn labels_in_no_order_make_symbols_in_order(rt: HostRuntime) -> Result<(), Fail> {
    let mut source = Vec::new(rt.alloc());
    let mut number = 0u32;
    for _ in 0..2048 {
        number = number.wrapping_mul(1021).wrapping_add(7) % 2048;
        push_line(&mut source, number)?;
    }
    assert!(rt; source.len() == 40_960);
    let module = make_module(rt.alloc(), &source)?;
    assert_eq!(rt;
        (module.symbols().len(), module.relocations().len()),
        (2048, 2048)
    );
    let mut last: &[u8] = b"";
    let symbols = module.symbols();
    for number in 0..symbols.len() {
        if let Some(symbol) = symbols.get(number) {
            assert!(rt; last < symbol.name);
            last = symbol.name;
        }
    }
    for relocation in module.relocations() {
        let label = module.symbols().get(relocation.symbol as usize);
        assert_eq!(rt; label.map(|s| s.offset), Some(relocation.offset));
    }
    Ok(())
}

#[test]
fn no_modules_have_no_entry(rt: HostRuntime) {
    assert_eq!(rt;
        link(rt.alloc(), &[], b"start").err(),
        Some(LinkFault::Entry)
    );
}
