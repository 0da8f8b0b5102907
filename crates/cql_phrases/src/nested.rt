//! A literal within a literal is tested against the grammar with a stack of its open brackets, and
//! kept as its span.

ghost use Rattle.std.specs.Prelude.{◌≡◌, ◌||◌, []};
ghost use Rattle.std.specs.Str.{bytes_eq};
ghost use Rattle.cql_phrases.specs.Symbols.{spelling};
ghost use Rattle.cql_phrases.specs.Inner.Reading.{Gives};
ghost use Rattle.cql_phrases.specs.Inner.TermReading.{stands_alone, opening, starts, bracket_closes, brace_closes, closing, comma, colon, follows};
ghost use Rattle.cql_phrases.specs.Inner.TermReading.{step, walk, nested_at};

use crate::fault::ParseFault;
use crate::front::is_spelt;
use crate::keyword::Keyword;
use crate::lexeme::Lexeme;
use crate::term::Nested;
use cql_lex::{Mark, Name};
use std::alloc::Global;

/// An open bracket, by what stands in it up to now.
#[derive(Clone, Copy)]
pub enum Frame {
    /// `[`.
    List,
    /// `{` with at most one term, so that it may be a set or a map.
    Braces,
    /// `{` with a comma after its first term.
    Set,
    /// A map's `{` whose last term is a key.
    Key,
    /// A map's `{` whose last term is a value.
    Value,
}

/// What may come next in the innermost open bracket.
#[derive(Clone, Copy)]
pub enum Wants {
    /// A first term or the closing bracket.
    First,
    /// A term.
    Term,
    /// What follows a term.
    Next,
}

/// What a lexeme does.
#[derive(Clone, Copy)]
pub enum Move {
    /// It stays in the same bracket.
    Go(Wants, Frame),
    /// It opens a bracket.
    Open(Frame),
    /// It closes the innermost one; the place after it.
    Close(usize),
    /// It isn't in the grammar there.
    Wrong,
}

#[tactic(auto, unfolding(crate::specs::Inner::TermReading::stands_alone))]
fn stands_alone(lexeme: &Lexeme) -> bool
    ensures { result ≡ stands_alone lexeme.now }
{
    match lexeme {
        Lexeme::Text(_) | Lexeme::Number(_) | Lexeme::Blob(_) | Lexeme::Uuid(_) => true,
        Lexeme::Word(name) => word_stands_alone(name),
        _ => false,
    }
}

fn word_stands_alone(name: &Name) -> bool
    ensures { result ≡ (bytes_eq name.now (spelling Keyword.Null) || bytes_eq name.now (spelling Keyword.True) || bytes_eq name.now (spelling Keyword.False)) }
{
    is_spelt(name, Keyword::Null) || is_spelt(name, Keyword::True) || is_spelt(name, Keyword::False)
}

#[tactic(auto, unfolding(crate::specs::Inner::TermReading::opening))]
fn opening(lexeme: &Lexeme) -> Move
    ensures { result ≡ opening lexeme.now }
{
    match lexeme {
        Lexeme::OpenBracket(_) => Move::Open(Frame::List),
        Lexeme::OpenBrace(_) => Move::Open(Frame::Braces),
        _ => Move::Wrong,
    }
}

#[tactic(auto, unfolding(crate::specs::Inner::TermReading::starts))]
fn starts(frame: Frame, lexeme: &Lexeme) -> Move
    ensures { result ≡ starts frame lexeme.now }
{
    if stands_alone(lexeme) {
        Move::Go(Wants::Next, frame)
    } else {
        opening(lexeme)
    }
}

#[tactic(auto, unfolding(crate::specs::Inner::TermReading::bracket_closes))]
fn bracket_closes(frame: Frame, at: usize) -> Move
    ensures { result ≡ bracket_closes frame at }
{
    match frame {
        Frame::List => Move::Close(at),
        Frame::Braces | Frame::Set | Frame::Key | Frame::Value => Move::Wrong,
    }
}

#[tactic(auto, unfolding(crate::specs::Inner::TermReading::brace_closes))]
fn brace_closes(frame: Frame, at: usize) -> Move
    ensures { result ≡ brace_closes frame at }
{
    match frame {
        Frame::Braces | Frame::Set | Frame::Value => Move::Close(at),
        Frame::List | Frame::Key => Move::Wrong,
    }
}

#[tactic(auto, unfolding(crate::specs::Inner::TermReading::closing))]
fn closing(frame: Frame, lexeme: &Lexeme) -> Move
    ensures { result ≡ closing frame lexeme.now }
{
    match lexeme {
        Lexeme::CloseBracket(at) => bracket_closes(frame, *at),
        Lexeme::CloseBrace(at) => brace_closes(frame, *at),
        _ => Move::Wrong,
    }
}

#[tactic(auto, unfolding(crate::specs::Inner::TermReading::comma))]
fn comma(frame: Frame) -> Move
    ensures { result ≡ comma frame }
{
    match frame {
        Frame::List => Move::Go(Wants::Term, Frame::List),
        Frame::Braces | Frame::Set => Move::Go(Wants::Term, Frame::Set),
        Frame::Key => Move::Wrong,
        Frame::Value => Move::Go(Wants::Term, Frame::Key),
    }
}

#[tactic(auto, unfolding(crate::specs::Inner::TermReading::colon))]
fn colon(frame: Frame) -> Move
    ensures { result ≡ colon frame }
{
    match frame {
        Frame::Braces | Frame::Key => Move::Go(Wants::Term, Frame::Value),
        Frame::List | Frame::Set | Frame::Value => Move::Wrong,
    }
}

#[tactic(auto, unfolding(crate::specs::Inner::TermReading::follows))]
fn follows(frame: Frame, lexeme: &Lexeme) -> Move
    ensures { result ≡ follows frame lexeme.now }
{
    match lexeme {
        Lexeme::Mark(Mark::Comma) => comma(frame),
        Lexeme::Mark(Mark::Colon) => colon(frame),
        _ => closing(frame, lexeme),
    }
}

#[tactic(auto, unfolding(crate::specs::Inner::TermReading::step))]
fn step(wants: Wants, frame: Frame, lexeme: &Lexeme) -> Move
    ensures { result ≡ step wants frame lexeme.now }
{
    match wants {
        Wants::First => match closing(frame, lexeme) {
            Move::Close(at) => Move::Close(at),
            _ => starts(frame, lexeme),
        },
        Wants::Term => starts(frame, lexeme),
        Wants::Next => follows(frame, lexeme),
    }
}

/// The place after the bracket that closes the first one, and the lexemes that follow it.
fn walk(alloc: Global, first: Frame, input: &[Lexeme]) -> Result<(usize, &[Lexeme]), ParseFault>
    ensures { Gives (λ x. (x.0, x.1.now)) result (walk Wants.First first [] input.now) }
{
    let mut around = Vec::new(alloc);
    let mut frame = first;
    let mut wants = Wants::First;
    let mut rest = input;
    while let Some((lexeme, left)) = rest.split_first() {
        rest = left;
        match step(wants, frame, lexeme) {
            Move::Go(w, f) => {
                wants = w;
                frame = f;
            }
            Move::Open(f) => {
                around.push(frame)?;
                frame = f;
                wants = Wants::First;
            }
            Move::Close(at) => match around.pop() {
                None => return Ok((at, left)),
                Some(f) => {
                    frame = f;
                    wants = Wants::Next;
                }
            },
            Move::Wrong => return Err(ParseFault::Syntax),
        }
    }
    Err(ParseFault::Syntax)
}

/// A literal, as its span.
#[tactic(auto, unfolding(crate::specs::Inner::TermReading::nested_at))]
pub fn nested(alloc: Global, input: &[Lexeme]) -> Result<(Nested, &[Lexeme]), ParseFault>
    ensures { Gives (λ x. (x.0, x.1.now)) result (nested_at input.now) }
{
    match input {
        [Lexeme::OpenBracket(start), rest @ ..] => {
            let (end, left) = walk(alloc, Frame::List, rest)?;
            Ok((Nested { start: *start, end }, left))
        }
        [Lexeme::OpenBrace(start), rest @ ..] => {
            let (end, left) = walk(alloc, Frame::Braces, rest)?;
            Ok((Nested { start: *start, end }, left))
        }
        _ => Err(ParseFault::Syntax),
    }
}
