//! Names among names.

ghost use Rattle.std.specs.Prelude.{◌≡◌, IfOk, OnOk, false};
ghost use Rattle.std.specs.List.{list_any};
ghost use Rattle.std.specs.List.Sorted.{IsPermutation, IsSorted};
ghost use Rattle.std.specs.Str.{bytes_eq};
ghost use Rattle.cas_types.specs.Values.{bytes_cmp};
ghost use Rattle.cas_terms.specs.Inner.Beside.{any_beside, first_passes};
ghost use Rattle.cas_terms.specs.Names.{stands_twice};

use cas_types::{Text, compare_bytes};
use std::alloc::AllocError;
use std::cmp::Ordering;

/// Whether the first bytes are one, which tells most names apart.
fn begin_alike(a: &[u8], b: &[u8]) -> bool
    ensures { result ≡ false → bytes_eq a.now b.now ≡ false }
{
    match (a, b) {
        ([x, _xs @ ..], [y, _ys @ ..]) => *x == *y,
        _ => true,
    }
}

/// Whether the names are one. Names are lower-cased unless they were quoted.
pub fn same_name(a: &str, b: &str) -> bool
    ensures { result ≡ bytes_eq a.now b.now }
{
    begin_alike(a.as_bytes(), b.as_bytes()) && a == b
}

/// Whether the name is among them.
pub fn has_name(names: &[Text], name: &str) -> bool
    ensures { result ≡ list_any (bytes_eq name.now) names.now }
{
    names.iter().any(|n| same_name(name, n.as_str()))
}

fn sort(names: &mut Vec<Text>) -> Result<(), AllocError>
    ensures same { IsPermutation names.old.items names.new.items }
    ensures sorted { OnOk result (IsSorted bytes_cmp names.new.items) }
{
    names.sort_by(|a, b| cmp_names(a, b))
}

fn cmp_names(a: &Text, b: &Text) -> Ordering
    ensures { result ≡ bytes_cmp a.now b.now }
{
    compare_bytes(a.as_str().as_bytes(), b.as_str().as_bytes())
}

fn is_first(name: &str, names: &[Text]) -> bool
    ensures { result ≡ first_passes (bytes_eq name.now) names.now }
{
    match names {
        [] => false,
        [first, _names @ ..] => same_name(name, first.as_str()),
    }
}

fn any_beside(names: &[Text]) -> bool
    ensures { result ≡ any_beside bytes_eq names.now }
{
    let mut rest = names;
    while let [name, more @ ..] = rest {
        if is_first(name.as_str(), more) {
            return true;
        }
        rest = more;
    }
    false
}

/// Whether a name stands twice. The names are sorted, so that this takes n log n steps for n names.
pub fn stands_twice(mut names: Vec<Text>) -> Result<bool, AllocError>
    ensures { IfOk result (λ b. b ≡ stands_twice names.items) }
{
    sort(&mut names)?;
    Ok(any_beside(names.as_slice()))
}
