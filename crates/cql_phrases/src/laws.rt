//! What holds of the tokens of every line.

ghost use Rattle.cql_phrases.specs.Lexemes.{TokensHaveLexemes};

/// Each token of a line is a lexeme: what is refused after the tokens is refused by the grammar.
pub fn tokens_have_lexemes()
    ensures { TokensHaveLexemes }
{}
