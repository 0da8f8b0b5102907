//! The bytes that terms, and the elements of literals, are as values of types.

ghost use Rattle.std.specs.Prelude.{◌≡◌, is_some, option_map, IfOk};
ghost use Rattle.cas_terms.specs.Constants.{gives_no_bytes};
ghost use Rattle.cas_terms.specs.Terms.{term_value, literal_value};
ghost use Rattle.cas_terms.specs.Inner.SpelledBytes.{spelled_bytes};

use crate::constants::{Spelled, copied, spell};
use cas_types::{Bytes, TypeTag};
use cql_parse::{Element, Term};
use std::alloc::{AllocError, Global};

/// The bytes of the term as a value of the type, where it is one.
#[tactic(auto, unfolding(crate::specs::Terms::term_value))]
pub fn spell_term<'a>(tag: TypeTag, term: &'a Term) -> Option<Spelled<'a>>
    ensures { option_map spelled_bytes result ≡ term_value tag term.now }
{
    match term {
        Term::Constant(constant) => spell(tag, constant),
        Term::Null | Term::Literal(_) => None,
    }
}

/// The bytes of the term as a value of the type, where it is one, in memory of their own.
pub fn term_value(alloc: Global, tag: TypeTag, term: &Term) -> Result<Option<Bytes>, AllocError>
    ensures { IfOk result (λ v. v ≡ term_value tag term.now) }
{
    copied(alloc, spell_term(tag, term))
}

/// Whether the term is a value of the type.
pub fn has_value(tag: TypeTag, term: &Term) -> bool
    ensures { result ≡ is_some (term_value tag term.now) }
{
    spell_term(tag, term).is_some()
}

/// Whether the term is a value of the type, and one without bytes.
pub fn has_empty_value(tag: TypeTag, term: &Term) -> bool
    ensures { result ≡ gives_no_bytes (term_value tag term.now) }
{
    match spell_term(tag, term) {
        Some(value) => value.as_slice().is_empty(),
        None => false,
    }
}

#[tactic(auto, unfolding(crate::specs::Terms::literal_value))]
fn spell_element<'a>(tag: TypeTag, element: &'a Element) -> Option<Spelled<'a>>
    ensures { option_map spelled_bytes result ≡ literal_value tag element.now }
{
    match element {
        Element::Constant(constant) => spell(tag, constant),
        Element::Null | Element::Nested(_) => None,
    }
}

/// The bytes of the element as a value of the type, where it is one, in memory of their own.
pub(crate) fn literal_value(
    alloc: Global,
    tag: TypeTag,
    element: &Element,
) -> Result<Option<Bytes>, AllocError>
    ensures { IfOk result (λ v. v ≡ literal_value tag element.now) }
{
    copied(alloc, spell_element(tag, element))
}

/// Whether the element is a value of the type.
pub(crate) fn is_value(tag: TypeTag, element: &Element) -> bool
    ensures { result ≡ is_some (literal_value tag element.now) }
{
    spell_element(tag, element).is_some()
}
