// What a br_table takes along, and where shared pieces put that to its place.
ghost use Rattle.std.specs.Prelude.{◌≡◌};
ghost use Rattle.wm_ast.specs.View.{code_of};
ghost use Rattle.wm_place.specs.Stop.{visit_told};
ghost use Rattle.cc_body.specs.Placers.{code_places, label_count};

use crate::branch::arity;
use cc_cut::labelled;
use wm_ast::Instr;
use wm_place::Stop;

/// A br_table of up to so many labels is a chain of tests; a longer one looks its label up.
pub(crate) const MOST_TESTED: usize = 17;

/// How many values a branch to a label takes along, in a function whose body gives so many.
pub(crate) fn label_count(results: u32, stop: Stop<'_>, label: u32) -> usize
    ensures { result ≡ label_count results (visit_told stop.entry) label }
{
    match labelled(stop.levels, label) {
        Some(level) => arity(level.block),
        None => results as usize,
    }
}

/// Whether a place has a br_table that looks its label up, and takes a value along.
pub(crate) fn places_value(results: u32, stop: Stop<'_>) -> bool
    ensures { result ≡ code_places results (visit_told stop.entry) (code_of stop.entry.rest.now) }
{
    match stop.rest.first() {
        Some(Instr::BrTable { labels, last }) => {
            labels.len() > MOST_TESTED && label_count(results, stop, *last) > 0
        }
        _ => false,
    }
}
