ghost use Rattle.std.specs.Prelude.{◌≡◌, OnOk};
ghost use Rattle.std.specs.Io.KnownBytes.{Appends};
ghost use Rattle.alpha_io.specs.Faults.{HasCause};
ghost use Rattle.alpha_io.specs.Written.{WritesPrefix};
ghost use Rattle.alpha_verdict.specs.Report.{broken_line, place_address};

use alpha_io::{Failed, Line, Sink, write_whole};
use alpha_shadow::Broken;

/// Appends the line of a broken place, with the addresses of the trigger and of the place, or on
/// `Failed` a prefix of it: `broken trigger A at B condition Cn`.
pub fn write_broken<K: Sink>(broken: &Broken, code_base: u64, to: &mut K) -> Result<(), Failed>
    ensures written { OnOk result (Appends (K.written to.old) (K.written to.new) (broken_line
        broken.now code_base)) }
    ensures prefix { WritesPrefix (K.written to.old) (K.written to.new) (broken_line broken.now
        code_base) }
    ensures cause { HasCause (K.faults to.old) (K.faults to.new) result }
{
    write_whole(to, line_of_broken(broken, code_base).as_bytes())
}

/// The line of a broken place, with the addresses of the trigger and of the place.
#[tactic(auto, unfolding(crate::specs::Report::broken_line))]
pub fn line_of_broken(broken: &Broken, code_base: u64) -> Line
    ensures { result ≡ broken_line broken.now code_base }
{
    let mut line = Line::new();
    line.push(b"broken trigger ");
    line.push_hex(place_address(code_base, broken.trigger));
    line.push(b" at ");
    line.push_hex(place_address(code_base, broken.at));
    line.push(b" condition C");
    line.push_decimal(u64::from(broken.condition.number()));
    line.end();
    line
}

/// The address of a place of the code with this base, modulo 2^64.
pub fn place_address(code_base: u64, place: u32) -> u64
    ensures { result ≡ place_address code_base place }
{
    code_base.wrapping_add(4 * u64::from(place))
}
