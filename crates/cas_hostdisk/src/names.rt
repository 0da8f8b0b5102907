//! How the files of a folder are called.

use cas_disk::Name;
use std::alloc::{AllocError, Global};

/// The path of a file: the manifest is `manifest`; a segment, a table and an import are `log-`,
/// `table-` and `import-` with the number's 16 hexadecimal digits.
pub fn path_of(alloc: Global, folder: &str, n: Name) -> Result<String, AllocError> {
    match n {
        Name::Manifest => format!(in alloc; "{folder}/manifest"),
        Name::Log(number) => format!(in alloc; "{folder}/log-{number:016x}"),
        Name::Table(number) => format!(in alloc; "{folder}/table-{number:016x}"),
        Name::Import(number) => format!(in alloc; "{folder}/import-{number:016x}"),
    }
}

fn is_digit(byte: u8) -> bool {
    matches!(byte, b'0'..=b'9' | b'a'..=b'f')
}

fn number_of(digits: &str) -> Option<u64> {
    if digits.len() != 16 || !digits.as_bytes().iter().all(|byte| is_digit(*byte)) {
        return None;
    }
    u64::from_str_radix(digits, 16).ok()
}

/// The file that is called so; of another name, none.
pub fn name_of(text: &str) -> Option<Name> {
    if text == "manifest" {
        return Some(Name::Manifest);
    }
    if let Some(digits) = text.strip_prefix("log-") {
        return number_of(digits).map(Name::Log);
    }
    if let Some(digits) = text.strip_prefix("table-") {
        return number_of(digits).map(Name::Table);
    }
    if let Some(digits) = text.strip_prefix("import-") {
        return number_of(digits).map(Name::Import);
    }
    None
}
