//! The conditions of a trap shadow as they are stated, tried one after another at every place. It is
//! slow, and has only the columns of the table in common with the checker.
use alpha_shadow::{Broken, Condition};
use alpha_table::{Insn, InsnKind, access, kind, sets, span, uses};
use alpha_words::Reg;

const CONDITIONS: [Condition; 9] = [
    Condition::ZeroDestination,
    Condition::SourceLost,
    Condition::SameDestination,
    Condition::WildBase,
    Condition::LoadThenStore,
    Condition::Locked,
    Condition::Turn,
    Condition::Open,
    Condition::Long,
];

/// The least broken place, by its place, then by its trigger, then by its condition.
pub fn least_broken(code: &[Insn]) -> Option<Broken> {
    for at in 0..=code.len() {
        for trigger in 0..=at {
            if !is_in_shadow(code, trigger, at) {
                continue;
            }
            for condition in CONDITIONS {
                if holds(code, trigger, at, condition) {
                    return Some(Broken {
                        trigger: u32::try_from(trigger).unwrap_or(u32::MAX),
                        at: u32::try_from(at).unwrap_or(u32::MAX),
                        condition,
                    });
                }
            }
        }
    }
    None
}

fn is_kind(code: &[Insn], place: usize, wanted: InsnKind) -> bool {
    code.get(place).is_some_and(|insn| kind(insn) == wanted)
}

// Whether the word is a trigger, and no barrier and no turn stands from it up to the place.
fn is_in_shadow(code: &[Insn], trigger: usize, at: usize) -> bool {
    is_kind(code, trigger, InsnKind::Trigger)
        && (trigger..at).all(|place| {
            !is_kind(code, place, InsnKind::Barrier) && !is_kind(code, place, InsnKind::Turn)
        })
}

fn sets_register(code: &[Insn], place: usize, r: Reg) -> bool {
    code.get(place).is_some_and(|insn| sets(insn) == Some(r))
}

fn is_set_in(code: &[Insn], from: usize, to: usize, r: Reg) -> bool {
    (from..to).any(|place| sets_register(code, place, r))
}

// Some word from the trigger to the place uses the register before any word sets it.
fn is_exposed(code: &[Insn], trigger: usize, at: usize, r: Reg) -> bool {
    (trigger..=at).any(|place| {
        code.get(place).is_some_and(|insn| uses(insn).has(r)) && !is_set_in(code, trigger, place, r)
    })
}

fn may_meet(load: &Insn, store: &Insn) -> bool {
    match (access(load), access(store), span(load), span(store)) {
        (Some(loaded), Some(stored), Some(read), Some(written)) => {
            loaded.base != stored.base || read.low < written.high && written.low < read.high
        }
        _ => false,
    }
}

fn holds(code: &[Insn], trigger: usize, at: usize, condition: Condition) -> bool {
    let destination = code.get(trigger).and_then(|insn| sets(insn));
    match condition {
        Condition::ZeroDestination => at == trigger && destination.is_none(),
        Condition::SourceLost => code
            .get(at)
            .and_then(|insn| sets(insn))
            .is_some_and(|r| is_exposed(code, trigger, at, r)),
        Condition::SameDestination => {
            trigger < at
                && is_kind(code, at, InsnKind::Trigger)
                && code.get(at).and_then(|insn| sets(insn)) == destination
        }
        Condition::WildBase => {
            trigger < at
                && code
                    .get(at)
                    .and_then(|insn| access(insn))
                    .is_some_and(|found| is_set_in(code, trigger, at, found.base))
        }
        Condition::LoadThenStore => code.get(at).is_some_and(|store| {
            kind(store) == InsnKind::Store
                && code.iter().take(at).skip(trigger).any(|load| kind(load) == InsnKind::Load
                    && may_meet(load, store))
        }),
        Condition::Locked => is_kind(code, at, InsnKind::Locked),
        Condition::Turn => is_kind(code, at, InsnKind::Turn),
        Condition::Open => at == code.len(),
        Condition::Long => {
            at < code.len()
                && at.checked_sub(trigger) == Some(1025)
                && !is_kind(code, at, InsnKind::Barrier)
        }
    }
}
