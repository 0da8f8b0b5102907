//! Writes the entries of a manifest, one by one.

ghost use Rattle.std.specs.Prelude.{◌≡◌, ◌+◌, ◌<◌, ◌≤◌, ◌^◌, List, [], ◌∷◌, ◌++◌, length, OnOk, IfErr};
ghost use Rattle.cas_disk.specs.Disk.{During, Changed, MayBeAnything, Same};
ghost use Rattle.cas_changes.specs.declared.entry.Entry.{Entry as EntryOf};
ghost use Rattle.cas_changes.specs.Saying.{said_by};
ghost use Rattle.cas_changes.specs.Spelling.{entry_bytes};
ghost use Rattle.cas_changes.specs.Allowed.{FitsEntry, HasSpelling};
ghost use Rattle.cas_manifest.specs.Manifests.{Place, place_of, Stands, MayHave, passes, room_of, Ends, WritesNothing};

use crate::blocks::block_of;
use crate::fault::{Limit, ManifestFault};
use crate::manifest::Manifest;
use cas_changes::{Entry, FILE_LIMIT, LISTED_LIMIT, listed_after};
use cas_disk::{Folder, Name};
use cas_gates::{First, write_gated};
use cas_io::Failed;
use std::alloc::Global;

impl Manifest {
    /// Appends an entry that may follow, in four calls of the folder. Of what a crash leaves at any
    /// moment, the entries are those before, with this one or without; after Ok it is there.
    pub fn append<F: Folder>(
        &mut self,
        alloc: Global,
        folder: &mut F,
        first: &mut Option<First>,
        entry: &Entry,
    ) -> Result<(), ManifestFault>
        requires spelled { HasSpelling entry.now }
        requires short { length (entry_bytes entry.now) < 2 ^ 32 }
        ensures appended { (entries : List EntryOf) → Stands (place_of self.old) (F.disk folder.old) entries → FitsEntry (said_by entries) entry.now
            → OnOk result (Stands (place_of self.new) (F.disk folder.new) (entries ++ entry.now ∷ [])) }
        ensures during { (entries : List EntryOf) → Stands (place_of self.old) (F.disk folder.old) entries → FitsEntry (said_by entries) entry.now
            → During (Changed Name.Manifest (λ _ file. MayHave entries entry.now file)) (F.disk folder.old) (F.disk folder.new) }
        ensures others { During (Changed Name.Manifest MayBeAnything) (F.disk folder.old) (F.disk folder.new) }
        ensures untouched { IfErr result (λ f. WritesNothing f → During Same (F.disk folder.old) (F.disk folder.new)) }
        ensures end { OnOk result ((place_of self.new).end ≡ (place_of self.old).end + room_of entry.now) }
        ensures stays { IfErr result (λ _. place_of self.new ≡ place_of self.old) }
        ensures outcome { Ends (passes (place_of self.old) entry.now) first.old first.new (F.faults_of folder.old) (F.faults_of folder.new) result }
        ensures count { F.faults_of folder.old ≤ F.faults_of folder.new }
    {
        if let Some(kept) = first {
            return Err(ManifestFault::Stopped(*kept));
        }
        let Some(listed) = listed_after(self.listed, entry) else {
            return Err(ManifestFault::TooMany {
                what: Limit::Files,
                limit: LISTED_LIMIT,
            });
        };
        let block = block_of(alloc, entry)?;
        let end = self.end + block.len() as u64;
        if end + 1 > FILE_LIMIT {
            return Err(ManifestFault::TooMany {
                what: Limit::Bytes,
                limit: FILE_LIMIT,
            });
        }
        match write_gated(folder, Name::Manifest, self.end, &block) {
            Ok(()) => {
                self.end = end;
                self.listed = listed;
                Ok(())
            }
            Err(Failed) => {
                *first = Some(First {
                    number: folder.faults(),
                });
                Err(ManifestFault::Failed)
            }
        }
    }
}
