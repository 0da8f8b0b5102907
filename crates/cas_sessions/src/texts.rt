//! Which statement a text is, and whether a call takes it.

ghost use Rattle.std.specs.Prelude.{◌≡◌};
ghost use Rattle.cas_sessions.specs.Calls.{takes};
ghost use Rattle.cas_sessions.specs.Inner.Texts.{Finds};

use crate::answer::Fault;
use cas_effects::{NOT_HERE, SYNTAX};
use cas_lines::{Line, read_line};
use cas_types::Mem;
use cql_parse::Statement;
use std::alloc::Global;

// Whether a call takes a statement, which takes definitions, or all others.
fn is_taken(statement: &Statement, defines: bool) -> bool
    ensures { result ≡ takes defines statement.now }
{
    match statement {
        Statement::Create(_) | Statement::Alter(_) => defines,
        _ => !defines,
    }
}

/// The statement that a text is, where the call takes it, which takes definitions, or all others; or why it
/// performs nothing.
#[tactic(auto, unfolding(crate::specs::Inner::Texts::Finds))]
pub(crate) fn statement_of(alloc: Global, text: &str, defines: bool) -> Result<Statement, Fault>
    ensures { Finds defines text.now result }
{
    match read_line(alloc, text.as_bytes()) {
        Ok(Line::Statement(statement)) => {
            if is_taken(&statement, defines) {
                Ok(statement)
            } else {
                drop(statement);
                Err(Fault::Refused(NOT_HERE))
            }
        }
        Ok(Line::Flush(name)) => {
            drop(name);
            Err(Fault::Refused(SYNTAX))
        }
        Ok(Line::Verify(name)) => {
            drop(name);
            Err(Fault::Refused(SYNTAX))
        }
        Ok(Line::Blank | Line::Syntax | Line::Clock(_) | Line::Status) => {
            Err(Fault::Refused(SYNTAX))
        }
        Err(Mem) => Err(Fault::Mem),
    }
}
