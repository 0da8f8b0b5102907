//! What a table file may hold of streams.

ghost use Rattle.cas_flush.specs.Laws.{WhatIsAllowedFits, MergesKeepCuts, MergesFit, SilentAreRanges};

/// A stream that says no more than atoms that a table may hold fits the table.
pub fn what_is_allowed_fits()
    ensures { WhatIsAllowedFits }
{}

/// A merge changes what is in force at cuts of its streams alone.
pub fn merges_keep_cuts()
    ensures { MergesKeepCuts }
{}

/// The merge of streams that together say no more than such atoms fits the table.
pub fn merges_fit()
    ensures { MergesFit }
{}

/// What says nothing is nothing but ranges without a row.
pub fn silent_are_ranges()
    ensures { SilentAreRanges }
{}
