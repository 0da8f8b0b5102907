//! The sources of a partition in the files of a view.

ghost use Rattle.std.specs.Prelude.{◌≡◌, ℕ, ◌++◌, ◌∷◌, [], None, IfOk, IfErr, IfSome, OnOk, IsErrOf, map};
ghost use Rattle.std.specs.Option.{option_to_list};
ghost use Rattle.cas_disk.specs.Counts.{Counted};
ghost use Rattle.cas_view.specs.Views.{file_of, files_of};
ghost use Rattle.cas_stored.specs.Reading.{IsReadIn, AreReadIn, IsBadFile, IsWhyNot};
ghost use Rattle.cas_stored.specs.Inner.Files.{FileAnswers, FilesGiveBehind};

use crate::file::FileSource;
use crate::places::BadPlaces;
use crate::read_slice;
use crate::source::{Source, StoredSource};
use cas_blocks::TableFault;
use cas_bounds::Slice;
use cas_disk::{Count, Sealed};
use cas_sstread::Table;
use cas_streams::FragmentSource;
use cas_view::{OpenFile, may_hold};
use std::alloc::{AllocError, Global};

// The source of a file that has the key. Nothing of the file is read where its range denies the key.
fn file_source<'a, S: Sealed, B: BadPlaces>(
    alloc: Global,
    file: &'a OpenFile<Table<S>>,
    key: &[u8],
    slice: &Slice,
    tally: &mut S::Tally,
) -> Result<Option<Source<'a, S, B>>, TableFault>
    requires reads { IsReadIn slice.now (file_of file.now) }
    requires told { (n at : ℕ) → IsBadFile (file_of file.now ∷ []) key.now slice.now n at → B.told n at }
    ensures answers { FileAnswers (file_of file.now) key.now slice.now ⟦<Source<'a, S, B> as FragmentSource>⟧.over_all
        ⟦<Source<'a, S, B> as FragmentSource>⟧.to_come result }
    ensures sound { IfOk result (λ o. IfSome o (λ x. ⟦<Source<'a, S, B> as FragmentSource>⟧.broken_by x ≡ None)) }
    ensures why { IfErr result (IsWhyNot (file_of file.now ∷ []) key.now) }
    ensures count { Counted (S.Tally.number tally.old) (S.Tally.number tally.new) (IsErrOf result TableFault.Read) }
{
    if !may_hold(&file.info, key) {
        return Ok(None);
    }
    match read_slice(alloc, &file.table, key, slice, tally) {
        Ok(Some(blocks)) => Ok(Some(StoredSource::File(FileSource::new(blocks)))),
        Ok(None) => Ok(None),
        Err(fault) => Err(fault),
    }
}

// Puts a source behind the others, if there is one.
fn put<X: Drop>(sources: &mut Vec<X>, source: Option<X>) -> Result<(), AllocError>
    ensures { OnOk result (sources.new.items ≡ sources.old.items ++ option_to_list source) }
{
    if let Some(source) = source {
        sources.push(source)?;
    }
    Ok(())
}

// Puts the sources of a partition in these files behind the others.
fn put_files<'a, S: Sealed, B: BadPlaces>(
    alloc: Global,
    sources: &mut Vec<Source<'a, S, B>>,
    files: &'a [OpenFile<Table<S>>],
    key: &[u8],
    slice: &Slice,
    tally: &mut S::Tally,
) -> Result<(), TableFault>
    requires reads { AreReadIn slice.now (files_of files.now) }
    requires told { (n at : ℕ) → IsBadFile (files_of files.now) key.now slice.now n at → B.told n at }
    ensures gives { OnOk result (FilesGiveBehind key.now slice.now ⟦<Source<'a, S, B> as FragmentSource>⟧.over_all
        ⟦<Source<'a, S, B> as FragmentSource>⟧.to_come (files_of files.now) sources.old.items sources.new.items) }
    ensures why { IfErr result (IsWhyNot (files_of files.now) key.now) }
    ensures count { Counted (S.Tally.number tally.old) (S.Tally.number tally.new) (IsErrOf result TableFault.Read) }
{
    match files {
        [] => Ok(()),
        [file, others @ ..] => {
            put(sources, file_source(alloc, file, key, slice, tally)?)?;
            put_files(alloc, sources, others, key, slice, tally)
        }
    }
}

/// The sources of a partition in these files.
pub(crate) fn file_sources<'a, S: Sealed, B: BadPlaces>(
    alloc: Global,
    files: &'a [OpenFile<Table<S>>],
    key: &[u8],
    slice: &Slice,
    tally: &mut S::Tally,
) -> Result<Vec<Source<'a, S, B>>, TableFault>
    requires reads { AreReadIn slice.now (files_of files.now) }
    requires told { (n at : ℕ) → IsBadFile (files_of files.now) key.now slice.now n at → B.told n at }
    ensures gives { IfOk result (λ v. FilesGiveBehind key.now slice.now ⟦<Source<'a, S, B> as FragmentSource>⟧.over_all
        ⟦<Source<'a, S, B> as FragmentSource>⟧.to_come (files_of files.now) [] v.items) }
    ensures why { IfErr result (IsWhyNot (files_of files.now) key.now) }
    ensures count { Counted (S.Tally.number tally.old) (S.Tally.number tally.new) (IsErrOf result TableFault.Read) }
{
    let mut sources = Vec::new(alloc);
    put_files(alloc, &mut sources, files, key, slice, tally)?;
    Ok(sources)
}

/// The sources of files, and behind them those of memtables.
pub(crate) fn with_memory<M: Drop, F: Drop>(
    files: Vec<StoredSource<M, F>>,
    memory: Vec<M>,
) -> Result<Vec<StoredSource<M, F>>, AllocError>
    ensures { IfOk result (λ v. v.items ≡ files.items ++ map StoredSource.Memory memory.items) }
{
    let mut sources = files;
    let mut rest = memory.into_iter();
    while let Some(source) = rest.next() {
        sources.push(StoredSource::Memory(source))?;
    }
    Ok(sources)
}
