//! What holds of the keys of all statements.

ghost use Rattle.cas_keys.specs.KeyLaws.{KeysReadBack};

/// A partition key reads back as the values that it was made of.
pub fn keys_read_back()
    ensures { KeysReadBack }
{}
