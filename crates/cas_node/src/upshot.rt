//! What came of a line.

ghost use Rattle.std.specs.Prelude.{◌≡◌};
ghost use Rattle.cas_node.specs.Lines.{replied};

use cas_render::Reply;

/// What came of a line: its reply, none where it says nothing; and whether memory ran out for what it didn't
/// tell, a flush or dropping segments behind one, which prints nothing.
#[derive(Drop)]
pub struct Upshot {
    pub reply: Option<Reply>,
    pub want: bool,
}

// Of a line where memory didn't run out for what it doesn't tell.
pub(crate) fn replied(reply: Option<Reply>) -> Upshot
    ensures { result ≡ replied reply }
{
    Upshot { reply, want: false }
}
