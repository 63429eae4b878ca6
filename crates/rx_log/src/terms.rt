// What is had of several nodes.
//
// What is had of the nodes is a short list, and a change goes over all of it, so that nothing rests on a node standing there
// once. A node whose last tenure is far behind gives its place to the next new one.
ghost use Rattle.std.specs.Prelude.{◌≡◌, ◌≢◌, ◌+◌, ◌-◌, ◌<◌, ◌^◌, ◌⊎◌, [], ◌∷◌, ◌++◌, ℕ, map, set, length, get_or, All, Contains, IfSome, IfNone, IfOk, OnOk, OnErr};
ghost use Rattle.rx_log.specs.declared.term.Term.{Term};
ghost use Rattle.rx_log.specs.Terms.{TakesPlace, Stands, renewed, with_number};

use crate::Holder;
use crate::term::Term;
use rx_heap::{Heap, Memory};

/// What is had of a node.
pub(crate) fn term_of(terms: &Vec<Term, Heap>, node: u64) -> Option<Term>
    ensures some { IfSome result (λ term. Contains terms.now.items term × (term.holder.node ≡ node)) }
    ensures none { IfNone result (All (λ (term : Term). term.holder.node ≢ node) terms.now.items) }
{
    for i in 0..terms.len() {
        let term = terms[i];
        if term.holder.node == node {
            return Some(term);
        }
    }
    None
}

/// What is had of the node whose current tenure stands at a place.
pub(crate) fn term_at(terms: &Vec<Term, Heap>, tenure: u64) -> Option<Term>
    ensures some { IfSome result (λ term. Contains terms.now.items term × (term.current ≡ tenure)) }
    ensures none { IfNone result (All (λ (term : Term). term.current ≢ tenure) terms.now.items) }
{
    for i in 0..terms.len() {
        let term = terms[i];
        if term.current == tenure {
            return Some(term);
        }
    }
    None
}

/// A tenure stands behind so many entries. Only of a node of which nothing is had it takes memory; `Memory` leaves all.
pub(crate) fn stand(
    terms: &mut Vec<Term, Heap>,
    holder: Holder,
    at: u64,
    counts: bool,
    span: u64,
) -> Result<(), Memory>
    requires { at < 2 ^ 63 - 1 }
    ensures ok { OnOk result (Stands at span terms.old.items terms.new.items holder counts) }
    ensures err { OnErr result (terms.new.items ≡ terms.old.items) }
{
    let place = at + 1;
    if term_of(terms, holder.node).is_some() {
        renew(terms, holder, place, counts);
        return Ok(());
    }
    put(
        terms,
        Term::blank(holder).next(holder, place, counts),
        at,
        span,
    )
}

// Puts what is had of a node that has nothing yet: in the place of one whose last tenure is far behind, or at the end.
fn put(terms: &mut Vec<Term, Heap>, term: Term, at: u64, span: u64) -> Result<(), Memory>
    ensures ok { OnOk result (TakesPlace at span terms.old.items terms.new.items term) }
    ensures err { OnErr result (terms.new.items ≡ terms.old.items) }
{
    match far_behind(terms, at, span) {
        Some(i) => terms[i] = term,
        None => terms.push(term)?,
    }
    Ok(())
}

// The index of a node whose last tenure is far behind.
fn far_behind(terms: &Vec<Term, Heap>, at: u64, span: u64) -> Option<usize>
    ensures { IfSome result (λ i. (i < length terms.now.items) × ((d : Term) → (get_or terms.now.items i d).last + span < at + 1)) }
{
    for i in 0..terms.len() {
        if at >= span && terms[i].last <= at - span {
            return Some(i);
        }
    }
    None
}

// A tenure of a node that is had stands at a place.
fn renew(terms: &mut Vec<Term, Heap>, holder: Holder, place: u64, counts: bool)
    ensures { terms.new.items ≡ map (renewed holder place counts) terms.old.items }
{
    for i in 0..terms.len() {
        terms[i] = terms[i].renewed(holder, place, counts);
    }
}

/// So many notes counted behind the tenure at a place.
pub(crate) fn count(terms: &mut Vec<Term, Heap>, tenure: u64, number: u64)
    ensures { terms.new.items ≡ map (with_number tenure number) terms.old.items }
{
    for i in 0..terms.len() {
        terms[i] = terms[i].with_number(tenure, number);
    }
}
