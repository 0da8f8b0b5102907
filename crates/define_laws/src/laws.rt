//! The laws of definitions that are written down.

ghost use Rattle.define_laws.specs.Entries.{DefinedColumnsMayBeTold, DefinedTablesMayBeTold, NamedSegmentsDefineNothing, ToldTablesAreTables};
ghost use Rattle.define_laws.specs.Fits.{AddedColumnsFit, MadeTableFits, StatedColumnsFit, StatedTablesFit};

/// A table that a CREATE TABLE makes is one that may be written to the manifest.
pub fn made_table_fits()
    ensures { MadeTableFits }
{}

/// So are the columns that an ALTER TABLE adds to a table.
pub fn added_columns_fit()
    ensures { AddedColumnsFit }
{}

/// A table that a CREATE TABLE of a source makes is one that may be written, with no condition on its names.
pub fn stated_tables_fit()
    ensures { StatedTablesFit }
{}

/// So are the columns that an ALTER TABLE of a source adds.
pub fn stated_columns_fit()
    ensures { StatedColumnsFit }
{}

/// What a CREATE TABLE of a source means may be told to the manifest, which then tells of the
/// tables that there are after it.
pub fn defined_tables_may_be_told()
    ensures { DefinedTablesMayBeTold }
{}

/// So may what an ALTER TABLE of a source means.
pub fn defined_columns_may_be_told()
    ensures { DefinedColumnsMayBeTold }
{}

/// The tables that a manifest tells of are such as statements define them, so that statements may
/// be bound to them.
pub fn told_tables_are_tables()
    ensures { ToldTablesAreTables }
{}

/// A segment that is named in the manifest defines nothing.
pub fn named_segments_define_nothing()
    ensures { NamedSegmentsDefineNothing }
{}
