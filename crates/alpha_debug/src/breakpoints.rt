ghost use Rattle.std.specs.Prelude.{◌≡◌, ◌==◌, not};
ghost use Rattle.std.specs.List.{filter};
ghost use Rattle.alpha_debug.specs.Session.{has_point};

use arrayvec::ArrayVec;

/// The most breakpoints.
pub(crate) const MOST_POINTS: usize = 64;

/// The addresses of the breakpoints, each once.
pub(crate) type Points = ArrayVec<u64, MOST_POINTS>;

/// Whether there is a breakpoint at an address.
pub(crate) fn has_point(points: &[u64], at: u64) -> bool
    ensures { result ≡ has_point points.now at }
{
    points.iter().any(|point| *point == at)
}

/// Removes the breakpoint at an address, if there is one.
pub(crate) fn remove_point(points: &mut Points, at: u64)
    ensures { points.new.items ≡ filter (λ point. not (point == at)) points.old.items }
{
    points.retain(|point| *point != at);
}
