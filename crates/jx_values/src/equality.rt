//! Values that are equal.
ghost use Rattle.std.specs.Prelude.{◌≡◌, ◌==◌, ◌&&◌, length, map, option_map, option_copied};
ghost use Rattle.jx_meaning.specs.Values.{plain, values, pairs, equal, all_equal, all_found, find};
ghost use Rattle.jx_values.specs.Kinds.{plain_pair, is_null};

use crate::kinds::{entries_in, is_null, items_in, number_in, text_in, truth_in};
use jx_syntax::{JxPair, JxValue};

/// The value of a key.
pub fn find<'a>(pairs: &'a [JxPair], key: &str) -> Option<&'a JxValue>
    ensures { option_map plain (option_copied result) ≡ find key.now (map plain_pair pairs.now) }
{
    for pair in pairs {
        if pair.key.as_str() == key {
            return Some(&pair.value);
        }
    }
    None
}

/// Whether two values are equal. Objects are equal in any order of their keys.
#[cycle(equal)]
pub fn are_equal(a: &JxValue, b: &JxValue) -> bool
    ensures { result ≡ equal (plain a.now) (plain b.now) }
{
    match a {
        JxValue::Null => is_null(b),
        JxValue::Truth(x) => match truth_in(b) {
            Some(y) => *x == y,
            None => false,
        },
        JxValue::Number(x) => match number_in(b) {
            Some(y) => x.eq(&y),
            None => false,
        },
        JxValue::Text(x) => match text_in(b) {
            Some(y) => x.as_str() == y,
            None => false,
        },
        JxValue::List(xs) => match items_in(b) {
            Some(ys) => lists_are_equal(xs.as_slice(), ys),
            None => false,
        },
        JxValue::Object(ps) => match entries_in(b) {
            Some(qs) => objects_are_equal(ps.as_slice(), qs),
            None => false,
        },
    }
}

#[cycle(equal)]
fn lists_are_equal(xs: &[JxValue], ys: &[JxValue]) -> bool
    ensures { result ≡ all_equal (values (map plain xs.now)) (values (map plain ys.now)) }
{
    if xs.len() != ys.len() {
        return false;
    }
    let mut i = 0;
    for x in xs {
        if !are_equal(x, &ys[i]) {
            return false;
        }
        i += 1;
    }
    true
}

#[cycle(equal)]
fn objects_are_equal(ps: &[JxPair], qs: &[JxPair]) -> bool
    ensures { result ≡ ((length ps.now == length qs.now)
        && all_found (pairs (map plain_pair ps.now)) (map plain_pair qs.now)) }
{
    if ps.len() != qs.len() {
        return false;
    }
    for p in ps {
        match find(qs, p.key.as_str()) {
            Some(value) => {
                if !are_equal(&p.value, value) {
                    return false;
                }
            }
            None => return false,
        }
    }
    true
}
