// Blocks: from items, the first ones, and one after the other.
ghost use Rattle.std.specs.Prelude.{◌≡◌, IfOk, OnOk};
ghost use Rattle.cc_line.specs.BlockView.{block_items, functions_view};
ghost use Rattle.cc_line.specs.Blocks.{constant_steps, copy_steps, less_unsigned_steps};
ghost use Rattle.cc_line.specs.Helpers.{each_once, with_helpers};
ghost use Rattle.cc_line.specs.Item.{items_helpers, items_most, items_texts, steps_items};
ghost use Rattle.cc_line.specs.Item as spec;
ghost use Rattle.cc_line.specs.View.{item_view, items_view, steps_view};

use crate::helper::add_helpers;
use crate::printing::print_items;
use crate::weight::most_of_items;
use crate::{Act, Block, Check, Cond, Conds, Functions, Item, Scratch, Slots, Spot, Step};
use mc_cmd::{Cmp, Range};
use mc_nbt::{Memory, Text, Texts};
use std::alloc::Global;

impl Block {
    /// The block of these items.
    ///
    /// # Errors
    ///
    /// `Memory` where the most that they weigh is 2^32 or more.
    pub fn of(items: Vec<Item>) -> Result<Block, Memory>
        ensures { IfOk result (λ b. block_items b ≡ items_view items.items) }
    {
        let weight = most_of_items(items.as_slice())?;
        Ok(Block { items, weight })
    }

    /// The block of these steps.
    ///
    /// # Errors
    ///
    /// `Memory` where there is no room for it, or the steps weigh 2^32 or more.
    pub fn of_steps(alloc: Global, steps: &[Step]) -> Result<Block, Memory>
        ensures { IfOk result (λ b. block_items b ≡ steps_items (steps_view steps.now)) }
    {
        let mut items = Vec::new(alloc);
        push_steps(steps, &mut items)?;
        Block::of(items)
    }

    /// The block that gives a place a number.
    ///
    /// # Errors
    ///
    /// `Memory` where there is no room for it.
    pub fn constant(alloc: Global, slot: u32, value: i32) -> Result<Block, Memory>
        ensures { IfOk result (λ b. block_items b ≡ steps_items (constant_steps slot value)) }
    {
        let steps = [Step::Run(Act::SetPlace { place: slot, value })];
        Block::of_steps(alloc, &steps)
    }

    /// The block that gives the second place what the first has.
    ///
    /// # Errors
    ///
    /// `Memory` where there is no room for it.
    pub fn copy(alloc: Global, from: u32, to: u32) -> Result<Block, Memory>
        ensures { IfOk result (λ b. block_items b ≡ steps_items (copy_steps from to)) }
    {
        let steps = [Step::Run(Act::CopyPlace { to, from })];
        Block::of_steps(alloc, &steps)
    }

    /// The block that gives the result's place 1 where the first operand is below the second without sign, else 0.
    ///
    /// # Errors
    ///
    /// `Memory` where there is no room for it.
    pub fn less_unsigned(alloc: Global, s: Slots) -> Result<Block, Memory>
        ensures { IfOk result (λ b. block_items b ≡ steps_items (less_unsigned_steps s.a s.b s.r)) }
    {
        let a = Spot::Scratch(Scratch::A);
        let b = Spot::Scratch(Scratch::B);
        let c = Spot::Scratch(Scratch::C);
        let below = Range::To(-1);
        let above = Range::From(0);
        let steps = [
            Step::Run(Act::LoadPlace {
                to: Scratch::A,
                place: s.a,
            }),
            Step::Run(Act::LoadPlace {
                to: Scratch::B,
                place: s.b,
            }),
            Step::Run(Act::SetSpot { spot: c, value: 0 }),
            Step::When(
                Conds::One(Cond::Holds(Check::Compare(a, Cmp::Less, b))),
                Act::SetSpot { spot: c, value: 1 },
            ),
            Step::When(
                Conds::Two(
                    Cond::Holds(Check::InRange(a, below)),
                    Cond::Holds(Check::InRange(b, above)),
                ),
                Act::SetSpot { spot: c, value: 0 },
            ),
            Step::When(
                Conds::Two(
                    Cond::Holds(Check::InRange(a, above)),
                    Cond::Holds(Check::InRange(b, below)),
                ),
                Act::SetSpot { spot: c, value: 1 },
            ),
            Step::Run(Act::KeepPlace {
                place: s.r,
                from: Scratch::C,
            }),
        ];
        Block::of_steps(alloc, &steps)
    }

    /// The block that does what this one does and then what the other does.
    ///
    /// # Errors
    ///
    /// `Memory` where there is no room for it, or the most that both weigh is 2^32 or more.
    #[tactic(auto, using(crate::proofs::ItemViewLemmas::view_joined,))]
    pub fn join(self, other: Block) -> Result<Block, Memory>
        ensures { IfOk result (λ b. block_items b ≡ spec.join (block_items self) (block_items other)) }
    {
        let mut items = self.items;
        let mut more = other.items;
        items.append(&mut more)?;
        Block::of(items)
    }

    /// Its items.
    pub fn items(&self) -> &[Item]
        ensures { items_view result.now ≡ block_items self.now }
    {
        self.items.as_slice()
    }

    /// Its items, to be put among others.
    pub fn into_items(self) -> Vec<Item>
        ensures { items_view result.items ≡ block_items self }
    {
        self.items
    }

    /// Its lines under a namespace.
    ///
    /// # Errors
    ///
    /// `Memory` where there is no room for them, or a place's number or an amount is no int.
    pub fn lines(&self, alloc: Global, ns: &Text) -> Result<Texts, Memory>
        ensures { IfOk result (λ t. t ≡ items_texts ns.now (block_items self.now)) }
    {
        print_items(alloc, self.items.as_slice(), ns)
    }

    /// The helpers that it calls and those that these call, under a namespace, each name once.
    ///
    /// # Errors
    ///
    /// As `lines`.
    pub fn helpers(&self, alloc: Global, ns: &Text) -> Result<Functions, Memory>
        ensures { IfOk result (λ fs. functions_view fs ≡ each_once (items_helpers ns.now (block_items self.now))) }
    {
        let mut found = Functions::new(alloc);
        self.add_helpers(alloc, ns, &mut found)?;
        Ok(found)
    }

    /// Adds these helpers to others, each whose name isn't there.
    ///
    /// # Errors
    ///
    /// As `lines`.
    pub fn add_helpers(&self, alloc: Global, ns: &Text, found: &mut Functions) -> Result<(), Memory>
        ensures { OnOk result (functions_view found.new ≡ with_helpers (functions_view found.old)
            (items_helpers ns.now (block_items self.now))) }
    {
        add_helpers(alloc, self.items.as_slice(), ns, found)
    }

    /// The most that its lines weigh, with those of its helpers, on any way.
    pub fn weight(&self) -> u32
        ensures { result ≡ items_most (block_items self.now) }
    {
        self.weight
    }
}

/// Adds steps to items.
///
/// # Errors
///
/// `Memory` where there is no room for them.
pub fn push_steps(steps: &[Step], items: &mut Vec<Item>) -> Result<(), Memory>
    ensures { OnOk result (items_view items.new.items ≡ spec.join (items_view items.old.items)
        (steps_items (steps_view steps.now))) }
{
    for step in steps {
        push_item(Item::Step(*step), items)?;
    }
    Ok(())
}

/// Adds an item to others.
///
/// # Errors
///
/// `Memory` where there is no room for it.
pub fn push_item(item: Item, items: &mut Vec<Item>) -> Result<(), Memory>
    ensures { OnOk result (items_view items.new.items ≡ spec.join (items_view items.old.items)
        (spec.first (item_view item) spec.no_more)) }
{
    items.push(item)?;
    Ok(())
}
