//! What was sought last of a table that is read.

use cas_blocks::TableFault;

/// Nothing, or something that wasn't found; a slice; or the fault by which it wasn't sought to the end.
#[derive(Drop)]
pub enum Sought<B> {
    Nothing,
    Slice(B),
    Broken(TableFault),
}
