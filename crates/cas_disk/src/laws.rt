//! What holds of the images of a folder in memory.
ghost use Rattle.std.specs.Prelude.{◌≡◌, ◌≢◌, Bool, false, ℕ, List, [], ◌∷◌, ◌++◌, None, Some, Vec};
ghost use Rattle.std.specs.Global.{Global};
ghost use Rattle.std.specs.List.{list_any};
ghost use Rattle.cas_disk.specs.declared.event.Event.{Event};
ghost use Rattle.cas_disk.specs.declared.event.Event.TheVariants as event;
ghost use Rattle.cas_disk.specs.declared.name.Name.{Name};
ghost use Rattle.cas_disk.specs.declared.name.Name.TheVariants as name;
ghost use Rattle.cas_disk.specs.Disk.{Image};
ghost use Rattle.cas_disk.specs.Names.{is_table};
ghost use Rattle.cas_disk.specs.Inner.Past.{now, Left, LeftSince, WritesTo, mixed, touches};

/// An image of an image is an image: what a crash may leave of a folder that begins as a crash left
/// it, a crash might have left before.
pub fn images_of_images_are_images()
    ensures { (start : Image) (past : List Event) (c d : Image) → Left start past c → Left c [] d → Left start past d }
{}

/// Of two images some files of one with the others of the other are an image: what a crash leaves of
/// one file doesn't depend on what it leaves of another.
pub fn images_mix()
    ensures { (p : Name → Bool) (start : Image) (past : List Event) (c d : Image) → Left start past c
        → Left start past d → Left start past (mixed p c d) }
{}

/// Writing where nothing is synced changes no other file.
pub fn writes_change_no_other_file()
    ensures { (n : Name) (start : Image) (past later : List Event) (c : Image) → WritesTo n later → Left start (later ++ past) c
        → (d : Image) × Left start past d × ((k : Name) → k ≢ n → c k ≡ d k) }
{}

/// What is synced is in every image, until it is changed.
pub fn synced_is_in_every_image()
    ensures { (n : Name) (start : Image) (past later : List Event) (c : Image) → list_any (touches n) later ≡ false
        → Left start (later ++ event.Sync n ∷ past) c → c n ≡ now start past n }
{}

/// A file, no table's, that isn't there when the manifest is synced is in no image, until it is made.
pub fn removed_is_in_no_image()
    ensures { (n : Name) (start : Image) (past later : List Event) (c : Image) → is_table n ≡ false → now start past n ≡ None
        → list_any (touches n) later ≡ false → Left start (later ++ event.Sync name.Manifest ∷ past) c → c n ≡ None }
{}

/// An admitted table is in every image with its bytes, until it is removed.
pub fn admitted_is_in_every_image()
    ensures { (number : ℕ) (bytes : Vec ℕ Global) (start : Image) (past later : List Event) (c : Image)
        → list_any (touches (name.Table number)) later ≡ false
        → Left start (later ++ event.Admit number bytes ∷ past) c → c (name.Table number) ≡ Some bytes.items }
{}
