// `execute`: its sub-commands, and what it runs.
ghost use Rattle.std.specs.Prelude.{◌≡◌, IfOk, Option, Some, None, length, map, option_map, suc};
ghost use Rattle.mc_cmd.specs.Command.{if_test, unless_test};
ghost use Rattle.mc_cmd.specs.Grammar as grammar;
ghost use Rattle.mc_cmd.specs.Grammar.{front_map};
ghost use Rattle.mc_cmd.specs.View.{simple_view, sub_view, test_view};

use crate::commands::read_simple;
use crate::front::{read_place_front, read_place_within, read_score_after, read_score_front};
use crate::words::{read_cmp, read_range};
use mc_cmd::{Simple, Sub, Test, cut, strip_front};
use mc_nbt::Memory;
use std::alloc::Global;

fn read_compare(alloc: Global, t: &[u8]) -> Result<Option<(Test, &[u8])>, Memory>
    ensures { IfOk result (λ o. option_map (λ p. (test_view p.0, p.1.now)) o ≡ front_map grammar.compare_of (grammar.compare_form.read t.now)) }
{
    let Some(((holder, obj), t)) = read_score_after(alloc, t, b"score ")? else {
        return Ok(None);
    };
    let Some((w, t)) = cut(t, b' ') else {
        return Ok(None);
    };
    let Some(cmp) = read_cmp(w) else {
        return Ok(None);
    };
    match read_score_front(alloc, t)? {
        Some(((from_holder, from_obj), t)) => {
            let test = Test::Compare {
                holder,
                obj,
                cmp,
                from_holder,
                from_obj,
            };
            Ok(Some((test, t)))
        }
        None => Ok(None),
    }
}

fn read_matches(alloc: Global, t: &[u8]) -> Result<Option<(Test, &[u8])>, Memory>
    ensures { IfOk result (λ o. option_map (λ p. (test_view p.0, p.1.now)) o ≡ front_map grammar.matches_of (grammar.matches_form.read t.now)) }
{
    let Some(((holder, obj), t)) = read_score_after(alloc, t, b"score ")? else {
        return Ok(None);
    };
    let Some(t) = strip_front(t, b"matches ") else {
        return Ok(None);
    };
    let Some((w, t)) = cut(t, b' ') else {
        return Ok(None);
    };
    match read_range(alloc, w)? {
        Some(range) => Ok(Some((Test::Matches { holder, obj, range }, t))),
        None => Ok(None),
    }
}

fn read_selects(alloc: Global, t: &[u8]) -> Result<Option<(Test, &[u8])>, Memory>
    ensures { IfOk result (λ o. option_map (λ p. (test_view p.0, p.1.now)) o ≡ front_map grammar.selects_of (grammar.selects_form.read t.now)) }
{
    let Some(t) = strip_front(t, b"data storage ") else {
        return Ok(None);
    };
    match read_place_front(alloc, t)? {
        Some(((id, path), t)) => Ok(Some((Test::Stored { id, path }, t))),
        None => Ok(None),
    }
}

fn read_test(alloc: Global, t: &[u8]) -> Result<Option<(Test, &[u8])>, Memory>
    ensures { IfOk result (λ o. option_map (λ p. (test_view p.0, p.1.now)) o ≡ grammar.test_read t.now) }
{
    if let Some(test) = read_compare(alloc, t)? {
        return Ok(Some(test));
    }
    if let Some(test) = read_matches(alloc, t)? {
        return Ok(Some(test));
    }
    if let Some(test) = read_selects(alloc, t)? {
        return Ok(Some(test));
    }
    Ok(None)
}

fn read_if(alloc: Global, t: &[u8]) -> Result<Option<(Sub, &[u8])>, Memory>
    ensures { IfOk result (λ o. option_map (λ p. (sub_view p.0, p.1.now)) o ≡ front_map if_test (grammar.if_form.read t.now)) }
{
    let Some(t) = strip_front(t, b"if ") else {
        return Ok(None);
    };
    match read_test(alloc, t)? {
        Some((test, t)) => Ok(Some((
            Sub::Test {
                unless: false,
                test,
            },
            t,
        ))),
        None => Ok(None),
    }
}

fn read_unless(alloc: Global, t: &[u8]) -> Result<Option<(Sub, &[u8])>, Memory>
    ensures { IfOk result (λ o. option_map (λ p. (sub_view p.0, p.1.now)) o ≡ front_map unless_test (grammar.unless_form.read t.now)) }
{
    let Some(t) = strip_front(t, b"unless ") else {
        return Ok(None);
    };
    match read_test(alloc, t)? {
        Some((test, t)) => Ok(Some((Sub::Test { unless: true, test }, t))),
        None => Ok(None),
    }
}

fn read_store_score(alloc: Global, t: &[u8]) -> Result<Option<(Sub, &[u8])>, Memory>
    ensures { IfOk result (λ o. option_map (λ p. (sub_view p.0, p.1.now)) o ≡ front_map grammar.store_score_of (grammar.store_score_form.read t.now)) }
{
    match read_score_after(alloc, t, b"store result score ")? {
        Some(((holder, obj), t)) => Ok(Some((Sub::StoreScore { holder, obj }, t))),
        None => Ok(None),
    }
}

fn read_store_data(alloc: Global, t: &[u8]) -> Result<Option<(Sub, &[u8])>, Memory>
    ensures { IfOk result (λ o. option_map (λ p. (sub_view p.0, p.1.now)) o ≡ front_map grammar.store_data_of (grammar.store_data_form.read t.now)) }
{
    match read_place_within(alloc, t, b"store result storage ", b"int 1 ")? {
        Some(((id, path), t)) => Ok(Some((Sub::StoreData { id, path }, t))),
        None => Ok(None),
    }
}

fn read_sub(alloc: Global, t: &[u8]) -> Result<Option<(Sub, &[u8])>, Memory>
    ensures { IfOk result (λ o. option_map (λ p. (sub_view p.0, p.1.now)) o ≡ grammar.sub_read t.now) }
{
    if let Some(sub) = read_if(alloc, t)? {
        return Ok(Some(sub));
    }
    if let Some(sub) = read_unless(alloc, t)? {
        return Ok(Some(sub));
    }
    if let Some(sub) = read_store_score(alloc, t)? {
        return Ok(Some(sub));
    }
    if let Some(sub) = read_store_data(alloc, t)? {
        return Ok(Some(sub));
    }
    Ok(None)
}

// The sub-commands and the command behind `run`.
pub(crate) fn read_subs(alloc: Global, t: &[u8]) -> Result<Option<(Vec<Sub>, Simple)>, Memory>
    ensures { IfOk result (λ o. option_map (λ q. (map sub_view q.0.items, simple_view q.1)) o ≡ grammar.subs_read (suc (length t.now)) t.now) }
{
    let mut subs = Vec::new(alloc);
    let mut rest = t;
    let mut left = t.len() + 1;
    while left > 0 {
        if let Some(run) = strip_front(rest, b"run ") {
            return match read_simple(alloc, run)? {
                Some(run) => Ok(Some((subs, run))),
                None => Ok(None),
            };
        }
        let Some((sub, more)) = read_sub(alloc, rest)? else {
            return Ok(None);
        };
        subs.push(sub)?;
        rest = more;
        left -= 1;
    }
    Ok(None)
}
