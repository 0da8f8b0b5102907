//! What holds of every line.

ghost use Rattle.cas_lines.specs.Laws.{FlushesAreRead, OneReading, StatusIsRead, VerifiesAreRead};

/// A line says one thing only.
pub fn one_reading()
    ensures { OneReading }
{}

/// Behind `\flush` and a space a word that names a table tells to flush that table.
pub fn flushes_are_read()
    ensures { FlushesAreRead }
{}

/// Behind `\verify` and a space such a word tells to verify that table.
pub fn verifies_are_read()
    ensures { VerifiesAreRead }
{}

/// `\status` alone asks which table files there are.
pub fn status_is_read()
    ensures { StatusIsRead }
{}
