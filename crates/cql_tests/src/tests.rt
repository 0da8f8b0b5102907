//! Which tokens a line has, what is refused, and brackets at great depth.

mod options;
mod printing;

use cql_lex::{
    LexFault, Mark, Token, TokenKind, one_reading, quotes_round_trip, tokens, well_placed,
};
use cql_parse::{Element, Literal, ParseFault, Statement, Term, one_statement, statement};
use std::alloc::Global;

// Lines with their tokens, counted out by hand: of each token the letter of its kind, or the mark itself, and
// where its span begins and ends.
const TOKENS: &str = "\
a => w 0 1
 =>
 \t  =>
 Ab_1\t => w 1 5
a b => w 0 1 w 2 3
\"a\"\"b\" c => q 0 6 w 7 8
\"\" => q 0 2
'' => s 0 2
'''' => s 0 4
'a' 'b' => s 0 3 s 4 7
'it''s' => s 0 7
'\u{e9} -- /* \"' => s 0 12
'a'b => s 0 3 w 3 4
0 => N 0 1
-0 => N 0 2
007 => N 0 3
-12,3 => N 0 3 , 3 4 N 4 5
a -1 => w 0 1 N 2 4
a-1 => w 0 1 N 1 3
1-2 => N 0 1 N 1 3
a - 1 => w 0 1 - 2 3 N 4 5
-a => - 0 1 w 1 2
+1 => + 0 1 N 1 2
1.5 => R 0 3
-1.50 => R 0 5
1. => N 0 1 . 1 2
.5 => . 0 1 N 1 2
1.a => N 0 1 . 1 2 w 2 3
1.5.2 => R 0 3 . 3 4 N 4 5
a.b => w 0 1 . 1 2 w 2 3
0x => B 0 2
0X0aFF => B 0 6
0xabc => B 0 4 w 4 5
0xffAND => B 0 4 w 4 7
0xab1 => B 0 4 N 4 5
550e8400-E29b-41d4-a716-446655440000 => U 0 36
550e8400-e29b-41d4-a716-446655440000-1 => U 0 36 N 36 38
abcdefab-abcd-abcd-abcd-abcdefabcdefx => w 0 8 - 8 9 w 9 13 - 13 14 w 14 18 - 18 19 w 19 23 - 23 24 w 24 37
<= >= < > = => ≤ 0 2 ≥ 3 5 < 6 7 > 8 9 = 10 11
<>==< => < 0 1 ≥ 1 3 = 3 4 < 4 5
()[]{} => ( 0 1 ) 1 2 [ 2 3 ] 3 4 { 4 5 } 5 6
,;:.+* => , 0 1 ; 1 2 : 2 3 . 3 4 + 4 5 * 5 6
a--b => w 0 1
-- \u{e9} ' =>
a//b => w 0 1
a/* b */c => w 0 1 w 8 9
/*/ a */b/**/ => w 8 9
5--3 => N 0 1
170141183460469231731687303715884105727 => N 0 39
-170141183460469231731687303715884105728 => N 0 40";

// Lines that no rule takes.
const REFUSED: &str = "\
1a
-1a
1_
0b1
1.234
1.5a
1.5_
-0x1
170141183460469231731687303715884105728
-170141183460469231731687303715884105729
1 340282366920938463463374607431768211456
a 999999999999999999999999999999999999999999999999999999999999
_a
a _
550e8400-e29b-41d4-a716-446655440000a
550e8400-e29b-41d4-a716-446655440000_
550e8400-e29b-41d4-a716-44665544000
'a
'
'a''
a'
\"a
\"a\"\"
/* a
/*/
/* a *
a / b
/
a\r
a\r b
\u{c}
\0
a\u{a0}b
\u{e9}
a\u{e9}
!=
a ! b
?
$$a$$
a|b
\\status
#
a % 2";

fn mark(mark: Mark) -> char {
    match mark {
        Mark::AtMost => '≤',
        Mark::AtLeast => '≥',
        Mark::OpenParen => '(',
        Mark::CloseParen => ')',
        Mark::OpenBracket => '[',
        Mark::CloseBracket => ']',
        Mark::OpenBrace => '{',
        Mark::CloseBrace => '}',
        Mark::Less => '<',
        Mark::Greater => '>',
        Mark::Equals => '=',
        Mark::Comma => ',',
        Mark::Semicolon => ';',
        Mark::Colon => ':',
        Mark::Dot => '.',
        Mark::Plus => '+',
        Mark::Minus => '-',
        Mark::Star => '*',
    }
}

fn letter(kind: TokenKind) -> char {
    match kind {
        TokenKind::Uuid => 'U',
        TokenKind::Blob => 'B',
        TokenKind::Number => 'N',
        TokenKind::Ratio => 'R',
        TokenKind::Name => 'w',
        TokenKind::QuotedName => 'q',
        TokenKind::String => 's',
        TokenKind::Mark(found) => mark(found),
    }
}

fn is_kind(word: Option<&str>, kind: TokenKind) -> bool {
    match word {
        Some(word) => word.starts_with(letter(kind)),
        None => false,
    }
}

fn is_number(word: Option<&str>, number: usize) -> bool {
    match word {
        Some(word) => word.parse().ok() == Some(number),
        None => false,
    }
}

// Whether the source has the tokens that are told.
fn has_tokens(alloc: Global, source: &str, told: &str) -> bool {
    let Ok(found) = tokens(alloc, source) else {
        return false;
    };
    let mut words = told.split(' ').skip(1);
    for token in found {
        let is_told = is_kind(words.next(), token.kind)
            && is_number(words.next(), token.start)
            && is_number(words.next(), token.end);
        if !is_told {
            return false;
        }
    }
    words.next().is_none()
}

fn is_told(alloc: Global, line: &str) -> bool {
    match line.split_once(" =>") {
        Some((source, told)) => has_tokens(alloc, source, told),
        None => false,
    }
}

#[test]
fn lines_have_their_tokens(rt: HostRuntime) {
    for line in TOKENS.split('\n') {
        assert!(rt; is_told(rt.alloc(), line), "{line:?}");
    }
    assert!(rt; has_tokens(rt.alloc(), "'\n\r\0'", " s 0 5"));
}

fn is_refused(alloc: Global, source: &str) -> bool {
    matches!(tokens(alloc, source), Err(LexFault::Syntax))
}

#[test]
fn what_no_rule_takes_is_refused(rt: HostRuntime) {
    for source in REFUSED.split('\n') {
        assert!(rt; is_refused(rt.alloc(), source), "{source:?}");
    }
    assert!(rt; is_refused(rt.alloc(), "\n"));
    one_reading();
    well_placed();
    quotes_round_trip();
}

fn span(elements: &[Element]) -> Option<(usize, usize)> {
    match elements {
        [Element::Nested(span)] => Some((span.start, span.end)),
        _ => None,
    }
}

// The span of the literal within the one that the only relation of a SELECT compares with.
fn inner_span(statement: &Statement) -> Option<(usize, usize)> {
    let Statement::Select(select) = statement else {
        return None;
    };
    match select.relations.as_slice() {
        [relation] => match &relation.value {
            Term::Literal(Literal::ListOf(elements)) => span(elements.as_slice()),
            _ => None,
        },
        _ => None,
    }
}

// A line of that many brackets, each within the one before.
fn brackets(alloc: Global, opening: usize, closing: usize) -> Option<String> {
    let mut line = String::new(alloc);
    line.push_str("SELECT k FROM t WHERE k = ").ok()?;
    for _ in 0..opening {
        line.push_str("[").ok()?;
    }
    for _ in 0..closing {
        line.push_str("]").ok()?;
    }
    Some(line)
}

// The span of the second bracket of so many, where they are a statement.
fn span_in(alloc: Global, opening: usize, closing: usize) -> Option<Option<(usize, usize)>> {
    let line = brackets(alloc, opening, closing)?;
    let found = tokens(alloc, line.as_str()).ok()?;
    match statement(alloc, &found, line.as_str()) {
        Ok(statement) => Some(inner_span(&statement)),
        Err(ParseFault::Syntax) => Some(None),
        Err(ParseFault::Mem) => None,
    }
}

#[test]
fn brackets_at_great_depth(rt: HostRuntime) {
    assert!(rt; span_in(rt.alloc(), 100_000, 100_000) == Some(Some((27, 200_025))));
    for closing in [99_999, 100_001] {
        assert!(rt;
            span_in(rt.alloc(), 100_000, closing) == Some(None),
            "{closing}"
        );
    }
    one_statement();
}

// Whether the tokens are no statement of a source that isn't their own.
fn is_foreign(alloc: Global, found: &[Token], source: &str) -> bool {
    matches!(statement(alloc, found, source), Err(ParseFault::Syntax))
}

fn are_foreign(alloc: Global) -> bool {
    match tokens(alloc, "SELECT * FROM t") {
        Ok(found) => {
            is_foreign(alloc, &found, "SELECT")
                && is_foreign(alloc, &found, "SELECT * FROM 1")
                && is_foreign(alloc, &found, "")
        }
        Err(_) => false,
    }
}

#[test]
fn tokens_of_another_source(rt: HostRuntime) {
    assert!(rt; are_foreign(rt.alloc()));
}
