//! A folder of files on a disk: what its calls read, and what a crash may leave of it at each moment.
#![tactic(auto)]

mod count;
mod event;
mod fault;
mod files;
mod folder;
mod image;
mod lasting;
mod laws;
mod listing;
mod mem_folder;
mod memory;
mod name;
mod plan;

pub use count::{Count, FaultCount};
pub use event::{Choice, Event, Stored};
pub use fault::{DraftFault, FolderFault};
pub use folder::{Draft, Folder, Sealed};
pub use lasting::{make, put};
pub use laws::{
    admitted_is_in_every_image, images_mix, images_of_images_are_images, removed_is_in_no_image,
    synced_is_in_every_image, writes_change_no_other_file,
};
pub use memory::{MemDraft, MemFolder, MemSealed};
pub use name::{Entry, Name, same_name};
pub use plan::FaultPlan;
