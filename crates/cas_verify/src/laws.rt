//! Which files are found right.

ghost use Rattle.cas_verify.specs.Laws.{CheckingIsExact, ThereAreFacts};

/// In a file that was loaded nothing is found exactly where it is that of contents that the table may
/// have.
pub fn checking_is_exact()
    ensures { CheckingIsExact }
{}

/// The atoms of the partitions of a file that was loaded have facts, so that the definition of a check
/// says something of each such file.
pub fn there_are_facts()
    ensures { ThereAreFacts }
{}
