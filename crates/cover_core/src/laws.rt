//! What a coverage counts. The function does nothing, and its contract is the law.
ghost use Rattle.cover_core.specs.Laws.{CoverageIsCover};

use request_bounds::BoundRule;

/// Where a rule is that of the service of a request, a coverage under it counts the calls as
/// protected of which
/// `Cover` says so.
pub fn coverage_is_cover<R: BoundRule>()
    ensures { CoverageIsCover R.rules }
{}
