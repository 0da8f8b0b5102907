//! What streams answer.

ghost use Rattle.cas_live.specs.Laws.{StreamsAnswer, WalksShow, ShowsWhatIsWritten};

/// What an ordered stream shows row by row is what all its atoms answer.
pub fn streams_answer()
    ensures { StreamsAnswer }
{}

/// What a row shows is known when it comes.
pub fn walks_show()
    ensures { WalksShow }
{}

/// Each live row is one that an atom of the stream writes in, with what all its atoms show of it.
pub fn shows_what_is_written()
    ensures { ShowsWhatIsWritten }
{}
