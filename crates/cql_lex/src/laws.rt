//! What holds of the tokens of every line.

ghost use Rattle.cql_lex.specs.Laws.{OneReading, WellPlaced, QuotesRoundTrip};

/// A line has one list of tokens at most.
pub fn one_reading()
    ensures { OneReading }
{}

/// The spans of a line's tokens ascend within it, each token's text is one of its kind, none could
/// be longer, and no letter, digit or `_` follows a name, a number, a ratio or a uuid at once.
pub fn well_placed()
    ensures { WellPlaced }
{}

/// A text in quotes stands for exactly the text that is written so.
pub fn quotes_round_trip()
    ensures { QuotesRoundTrip }
{}
