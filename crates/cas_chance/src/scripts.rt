//! Scripts that are made by chance. A file of rules says what they are made of: each line is one of the
//! texts that its first word may stand for, and `$word` in a text stands for one of the word's.

ghost use Rattle.std.specs.Prelude.{◌<◌, ◌^◌, IfOk, OnOk};
ghost use Rattle.cas_chance.specs.Lines.{AreLines, EndsLine};

use crate::chance::Chance;
use std::alloc::{AllocError, Global};
use std::str::from_utf8;

/// How many statements a run has, beside definitions and what sets the clock.
const STATEMENTS_OF_A_RUN: u32 = 2_000;

/// How many of them are made until the clock is set to the next second. It divides those of a run, which so begins by
/// setting the clock.
const STATEMENTS_OF_A_SECOND: u32 = 8;

/// Of so many seconds one is drawn.
const SECONDS: usize = 3;

/// How many of them are made until a key is left behind and a new one comes. It bounds what a partition has.
const STATEMENTS_OF_A_KEY: u32 = 300;

/// How often the names in a text are replaced; after that none is left.
const DEPTH: u32 = 6;

/// The texts that a name may stand for.
#[derive(Drop)]
struct Rule<'a> {
    name: &'a [u8],
    texts: Vec<&'a [u8]>,
}

/// Makes statements by rules.
#[derive(Drop)]
struct Maker<'a> {
    rules: Vec<Rule<'a>>,
    chance: Chance,
}

fn is_dollar(byte: &u8) -> bool {
    *byte == b'$'
}

fn is_lowercase(byte: u8) -> bool {
    byte.is_ascii_lowercase()
}

// The letters that a text begins with, and what stands behind them.
fn name_and_rest(text: &[u8]) -> (&[u8], &[u8]) {
    match text.iter().position(|b| !is_lowercase(*b)) {
        Some(place) => text.split_at(place),
        None => (text, &[]),
    }
}

// The name and the text of a line; none where it is a comment or empty.
fn name_and_text(line: &[u8]) -> Option<(&[u8], &[u8])> {
    match name_and_rest(line) {
        (name, [b' ', text @ ..]) if !name.is_empty() => Some((name, text)),
        _ => None,
    }
}

fn add<'a>(
    alloc: Global,
    rules: &mut Vec<Rule<'a>>,
    name: &'a [u8],
    text: &'a [u8],
) -> Result<(), AllocError> {
    for rule in rules.iter_mut() {
        if rule.name == name {
            rule.texts.push(text)?;
            return Ok(());
        }
    }
    rules.push(Rule {
        name,
        texts: vec![in alloc; text]?,
    })?;
    Ok(())
}

fn rules_of(alloc: Global, text: &[u8]) -> Result<Vec<Rule<'_>>, AllocError> {
    let mut rules = Vec::new(alloc);
    for line in text.split(|b| *b == b'\n') {
        if let Some((name, text)) = name_and_text(line) {
            add(alloc, &mut rules, name, text)?;
        }
    }
    Ok(rules)
}

// The texts that the name may stand for.
fn texts_of<'a>(rules: &'a [Rule<'a>], name: &[u8]) -> &'a [&'a [u8]] {
    for rule in rules {
        if rule.name == name {
            return rule.texts.as_slice();
        }
    }
    &[]
}

fn number_in(text: &[u8]) -> u32 {
    match from_utf8(text) {
        Ok(digits) => digits.parse().unwrap_or(0),
        Err(_) => 0,
    }
}

fn push_line(script: &mut Vec<u8>, before: &[u8], text: &[u8]) -> Result<(), AllocError>
    ensures { OnOk result (EndsLine script.new.items) }
{
    script.extend_from_slice(before)?;
    script.extend_from_slice(text)?;
    script.push(b'\n')?;
    Ok(())
}

fn push_number(alloc: Global, text: &mut Vec<u8>, number: u64) -> Result<(), AllocError> {
    let digits = format!(in alloc; "{number}")?;
    text.extend_from_slice(digits.as_bytes())
}

impl Maker<'_> {
    // How many statements the rules ask for.
    fn count(&self) -> u32 {
        match texts_of(&self.rules, b"statements") {
            [text, ..] => number_in(text),
            [] => 0,
        }
    }

    // One of the texts that the name may stand for; nothing where there is none.
    fn choice(&mut self, name: &[u8]) -> &[u8] {
        let texts = texts_of(&self.rules, name);
        match texts.get(self.chance.below(texts.len())) {
            Some(text) => text,
            None => &[],
        }
    }

    // Around the second of the statement of that number. In a run none is below one of an earlier run: so it doesn't show
    // whether a run found a moment that only a SELECT gave, which a flush tells the next run.
    fn second(&mut self, number: u32) -> u64
        ensures { result < 2 ^ 32 }
    {
        let begun = u64::from(number / STATEMENTS_OF_A_RUN) * SECONDS as u64;
        u64::from(number / STATEMENTS_OF_A_SECOND) + begun + self.chance.below(SECONDS) as u64
    }

    fn key(&mut self, number: u32) -> u64 {
        u64::from(number / STATEMENTS_OF_A_KEY) + self.chance.below(3) as u64
    }

    // Around the timestamps that are drawn in that second, so that some are the same.
    fn timestamp(&mut self, number: u32) -> u64 {
        self.second(number) * 1_000_000 + self.chance.below(8) as u64
    }

    // Puts what the name stands for in the statement of that number.
    fn put(
        &mut self,
        alloc: Global,
        number: u32,
        name: &[u8],
        text: &mut Vec<u8>,
    ) -> Result<(), AllocError> {
        match name {
            b"key" => push_number(alloc, text, self.key(number)),
            b"timestamp" => push_number(alloc, text, self.timestamp(number)),
            _ => text.extend_from_slice(self.choice(name)),
        }
    }

    // The text with its names replaced.
    fn replaced(&mut self, alloc: Global, number: u32, text: &[u8]) -> Result<Vec<u8>, AllocError> {
        let mut out = Vec::new(alloc);
        for (i, part) in text.split(is_dollar).enumerate() {
            if i == 0 {
                out.extend_from_slice(part)?;
            } else {
                let (name, rest) = name_and_rest(part);
                self.put(alloc, number, name, &mut out)?;
                out.extend_from_slice(rest)?;
            }
        }
        Ok(out)
    }

    fn statement(&mut self, alloc: Global, number: u32) -> Result<Vec<u8>, AllocError> {
        let mut text = self.choice(b"statement").to_vec(alloc)?;
        for _ in 0..DEPTH {
            if !text.iter().any(is_dollar) {
                break;
            }
            text = self.replaced(alloc, number, &text)?;
        }
        Ok(text)
    }

    // The words of a run; before the first statement also the definitions.
    fn begin(&mut self, number: u32, script: &mut Vec<u8>) -> Result<(), AllocError>
        ensures { OnOk result (EndsLine script.new.items) }
    {
        push_line(script, b"words: ", self.choice(b"words"))?;
        if number == 0 {
            for text in texts_of(&self.rules, b"define") {
                push_line(script, b"> ", text)?;
            }
        }
        Ok(())
    }

    // What comes before the statement of that number, and the statement.
    fn next(&mut self, alloc: Global, number: u32, script: &mut Vec<u8>) -> Result<(), AllocError>
        ensures { OnOk result (EndsLine script.new.items) }
    {
        if number % STATEMENTS_OF_A_RUN == 0 {
            self.begin(number, script)?;
        }
        if number % STATEMENTS_OF_A_SECOND == 0 {
            let second = self.second(number);
            let command = format!(in alloc; "\\clock {second}")?;
            push_line(script, b"> ", command.as_bytes())?;
        }
        push_line(script, b"> ", &self.statement(alloc, number)?)
    }
}

/// Runs of statements that are made by these rules, as a file of rows, which doesn't say what is to be printed.
/// The same rules make the same runs.
pub fn generated(alloc: Global, rules: &[u8]) -> Result<Vec<u8>, AllocError>
    ensures { IfOk result (λ script. AreLines script.items) }
{
    let mut maker = Maker {
        rules: rules_of(alloc, rules)?,
        chance: Chance::new(),
    };
    let mut script = Vec::new(alloc);
    for number in 0..maker.count() {
        maker.next(alloc, number, &mut script)?;
    }
    Ok(script)
}
