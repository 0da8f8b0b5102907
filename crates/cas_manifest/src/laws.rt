//! What is read is a manifest, and each manifest is read.

ghost use Rattle.std.specs.Prelude.{◌≡◌, ℕ, List, length, Ok};
ghost use Rattle.cas_codec.specs.Exact.{AreBytes};
ghost use Rattle.cas_changes.specs.declared.entry.Entry.{Entry};
ghost use Rattle.cas_changes.specs.Saying.{said_by};
ghost use Rattle.cas_manifest.specs.File.{front, IsManifest};
ghost use Rattle.cas_manifest.specs.Reading.{Far, manifest_of};
ghost use Rattle.cas_manifest.specs.Reads.{IsRead};

/// What is read of a file stands there: it is a manifest with just these entries, each of which may
/// follow those before it, and ends where the reading says. And each such manifest is read, whatever
/// follows its closed gate.
pub fn manifests_are_exact()
    ensures found { (file : List ℕ) (far : Far) (at : ℕ) → AreBytes file → manifest_of file ≡ Ok (far, at) → IsRead far at file }
    ensures again { (file : List ℕ) (entries : List Entry) → AreBytes file → IsManifest entries file
        → manifest_of file ≡ Ok ((said_by entries, entries), length (front entries)) }
{}
