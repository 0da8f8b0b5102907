//! What a log needs of its entries, and how an entry reaches it.
ghost use Rattle.cas_history.specs.Log.{Rules};

/// Entries of a log.
pub trait Entries {
    // In which lists one stands, which word counts it, and what it may follow.
    ghost rules: { Rules Self };
}

/// The entry that a value means. Implement it over references to what the caller has, so that no entry is
/// made or copied.
pub trait Tells<E> {
    ghost entry: { Self → E };
}
