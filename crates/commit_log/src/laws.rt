//! Laws of the definitions. Each function does nothing, and its contract is the law.
ghost use Rattle.commit_log.specs.Laws.{GrowsByNone, GrowsByMore, GrowsOn, AddsOn, FrontsAreGrown, HasItsJournal, RaisesHorizon};
ghost use Rattle.commit_log.specs.Keeping.{EachKeeps, FrontsAreJournals};

/// A store that has grown by some records goes on to grow, and each front of it that has the old
/// records has grown by some of them.
pub fn grows()
    ensures none { GrowsByNone }
    ensures more { GrowsByMore }
    ensures on { GrowsOn }
    ensures adds { AddsOn }
    ensures fronts { FrontsAreGrown }
{}

/// A log that is ready has the journal that its disk holds, and counts its records.
pub fn has_its_journal()
    ensures { HasItsJournal }
{}

/// What a journal that was read keeps: whatever bytes were read, a service may go on from it. And
/// each front of its records that has the base is the journal of an earlier time, with the same
/// base and no higher incarnation.
pub fn keeps_journal()
    ensures keeps { EachKeeps }
    ensures fronts { FrontsAreJournals }
{}

/// What an opening stores first makes the horizon the greater one, of the store's and the wanted.
pub fn raises_horizon()
    ensures { RaisesHorizon }
{}
