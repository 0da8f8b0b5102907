//! Why tokens give no statement.

pub use cql_phrases::ParseFault;
