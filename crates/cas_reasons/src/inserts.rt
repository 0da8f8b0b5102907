//! What is wrong with no plain INSERT: whether each column of the key has a value, and each name stands once.

ghost use Rattle.std.specs.Prelude.{◌≡◌, ◌&&◌, ◌==◌, not, length, IfOk};
ghost use Rattle.cas_terms.specs.Names.{stands_twice};
ghost use Rattle.cas_keys.specs.Inner.Sources.{terms_of};
ghost use Rattle.cas_reasons.specs.Inner.PlainInserts.{has_good_partition, has_good_key, is_plain_insert};

use cas_keys::is_given_bytes;
use cas_mentions::named_twice;
use cas_types::Column;
use cas_where::{KeyTerms, lacks_clustering, lacks_partition, sole_column};
use cql_parse::Insert;
use std::alloc::{AllocError, Global};

fn has_good_partition(columns: &[Column], terms: KeyTerms<'_>) -> bool
    ensures { result ≡ has_good_partition columns.now (terms_of terms.entry) }
{
    match sole_column(columns) {
        Some(column) => is_given_bytes(terms, column),
        None => !lacks_partition(terms, columns),
    }
}

fn has_good_key(columns: &[Column], terms: KeyTerms<'_>) -> bool
    ensures { result ≡ has_good_key columns.now (terms_of terms.entry) }
{
    has_good_partition(columns, terms) && !lacks_clustering(terms, columns)
}

/// Whether it is a plain INSERT: one without USING, that gives each column of the primary key a value, a
/// sole partition column one with bytes, and that names no column twice.
pub fn is_plain_insert(
    alloc: Global,
    columns: &[Column],
    insert: &Insert,
) -> Result<bool, AllocError>
    ensures { IfOk result (λ b. b ≡ is_plain_insert columns.now insert.now) }
{
    let names = insert.columns.as_slice();
    let terms = KeyTerms::Insert(names, insert.values.as_slice());
    if insert.uses.len() == 0 && has_good_key(columns, terms) {
        let twice = named_twice(alloc, names)?;
        return Ok(!twice);
    }
    Ok(false)
}
