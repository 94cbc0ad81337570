// The cuts of a module, made on two ways through each body: one gives each cut its index, and one its exits.
ghost use Rattle.std.specs.Prelude.{◌≡◌, ℕ, List, OnOk, IfOk};
ghost use Rattle.wm_place.specs.Stop.{visit_told};
ghost use Rattle.cc_cut.specs.Cuts.{function_cuts, cuts_of};
ghost use Rattle.cc_cut.specs.Piece.{function_pieces, index_of};
ghost use Rattle.cc_cut.specs.steps.Exits.{visit_paths, index_in, indices_in};
ghost use Rattle.cc_cut.specs.steps.Making.{add_exits as more_exits, IsNumbered, IsMade};

use crate::begin::is_cut;
use crate::cost::code_cost;
use crate::exit::{Indices, add_exits};
use crate::table::{Cut, Cuts};
use mc_nbt::Memory;
use std::alloc::Global;
use std::collections::HashMap;
use wm_ast::Items;
use wm_place::{Stop, Visitor, walk};
use wm_valid::Typed;

// Gives each cut of a function its index.
#[derive(Drop)]
struct Numbering {
    alloc: Global,
    spent: u32,
    count: u32,
    indices: Indices,
}

impl Visitor for Numbering {
    ghost visit_gives = { λ s v t. IsNumbered s.spent s.count s.indices v t.spent t.count t.indices };

    fn visit(&mut self, stop: Stop<'_>) -> Result<(), Memory> {
        let cost = code_cost(stop.rest);
        if is_cut(self.spent, stop) {
            let count = self.count.checked_add(1).ok_or(Memory)?;
            let path = Vec::from_slice(self.alloc, stop.path)?;
            self.indices.insert(path, count)?;
            self.count = count;
            self.spent = cost;
        } else {
            self.spent += cost;
        }
        Ok(())
    }
}

// Makes the cuts of a function, whose indices are known.
#[derive(Drop)]
struct Making<'a> {
    alloc: Global,
    func: u32,
    spent: u32,
    count: u32,
    indices: &'a Indices,
    cuts: Vec<Cut>,
}

// Adds the exits to which a place leads to the last cut.
fn add_to_last(
    alloc: Global,
    indices: &Indices,
    stop: Stop<'_>,
    cuts: &mut Vec<Cut>,
) -> Result<(), Memory>
    ensures { OnOk result (cuts.new.items ≡ more_exits cuts.old.items (indices_in indices.now (visit_paths (visit_told stop.entry)))) }
{
    if let Some(cut) = cuts.pop() {
        let Cut {
            func,
            index,
            place,
            layout,
            exits,
        } = cut;
        let mut exits = exits.into_vec();
        add_exits(alloc, indices, stop, &mut exits)?;
        cuts.push(Cut {
            func,
            index,
            place,
            layout,
            exits: Items::from_vec(exits),
        })?;
    }
    Ok(())
}

impl Visitor for Making<'_> {
    ghost visit_gives = { λ s v t. IsMade s.indices.now s.func s.spent s.count s.cuts.items v t.spent t.count t.cuts.items × (t.func ≡ s.func) × (t.indices.now ≡ s.indices.now) };

    fn visit(&mut self, stop: Stop<'_>) -> Result<(), Memory> {
        let cost = code_cost(stop.rest);
        if is_cut(self.spent, stop) {
            let index = self.count.checked_add(1).ok_or(Memory)?;
            self.cuts.push(Cut {
                func: self.func,
                index,
                place: Items::from_vec(Vec::from_slice(self.alloc, stop.path)?),
                layout: Items::from_vec(Vec::from_slice(self.alloc, stop.kinds)?),
                exits: Items::new(self.alloc),
            })?;
            self.count = index;
            self.spent = cost;
        } else {
            self.spent += cost;
        }
        add_to_last(self.alloc, self.indices, stop, &mut self.cuts)
    }
}

// The indices of the cuts of the function of this index; none where there is no such function.
pub(crate) fn function_indices(alloc: Global, m: &Typed, func: u32) -> Result<Indices, Memory>
    ensures { IfOk result (λ indices. (path : List ℕ)
        → index_in indices path ≡ index_of (function_pieces m.now func) path) }
{
    let mut numbering = Numbering {
        alloc,
        spent: 0,
        count: 0,
        indices: HashMap::new(alloc),
    };
    walk(alloc, m, func, &mut numbering)?;
    Ok(numbering.indices)
}

// The cuts of the function of this index; none where there is no such function.
fn function_cuts(alloc: Global, m: &Typed, func: u32) -> Result<Cuts, Memory>
    ensures { IfOk result (λ cuts. cuts.items ≡ function_cuts m.now func) }
{
    let indices = function_indices(alloc, m, func)?;
    let mut making = Making {
        alloc,
        func,
        spent: 0,
        count: 0,
        indices: &indices,
        cuts: Vec::new(alloc),
    };
    walk(alloc, m, func, &mut making)?;
    Ok(making.cuts)
}

/// The cuts of a module, in the order of its functions, and in each in the order of the text. It goes through each body
/// twice, and looks up the path of each place to which a way leads. Besides what it gives it keeps the paths of the
/// cuts of one function.
///
/// # Errors
///
/// `Memory` where there is no room for the cuts.
pub fn cut_module(alloc: Global, m: &Typed) -> Result<Cuts, Memory>
    ensures { IfOk result (λ cuts. cuts.items ≡ cuts_of m.now) }
{
    let mut cuts = Vec::new(alloc);
    for func in 0..m.module().funcs.len() {
        let mut own = function_cuts(alloc, m, func as u32)?;
        cuts.append(&mut own)?;
    }
    Ok(cuts)
}
