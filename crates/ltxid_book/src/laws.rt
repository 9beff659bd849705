//! A law of the definitions. The function does nothing, and its contract is the law.
ghost use Rattle.ltxid_book.specs.Laws.{BeginsUntouched, FollowsCommits, FollowsBlocks, FollowsForgetting, TellsBlocks};

/// A book that takes each commit, each block and each horizon of a journal, in order, says of each
/// session what the journal says.
pub fn follows_journal()
    ensures begins { BeginsUntouched }
    ensures commits { FollowsCommits }
    ensures blocks { FollowsBlocks }
    ensures forgetting { FollowsForgetting }
    ensures tells { TellsBlocks }
{}
