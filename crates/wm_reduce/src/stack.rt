ghost use Rattle.std.specs.Prelude.{◌≡◌, ◌≤◌, [], ◌∷◌, ◌++◌, length, reverse, take, drop, IfOk, OnOk, MatchOption};

use mc_nbt::Memory;
use std::alloc::Global;
use std::marker::Model;

/// A stack. Contracts see it as the list of its items, the one on top first.
#[derive(Debug, Drop)]
pub(crate) struct Stack<T> {
    items: Vec<T>,
}

impl<T> Model for Stack<T> {
    ghost use Rattle.std.specs.Prelude.{List, reverse};
    ghost use Rattle.std.specs.Coded.{coded_list};

    ghost Value = { List T };

    ghost coded = { coded_list T.code };

    ghost view = { λ s. reverse s.items.items };
}

impl<T> Stack<T> {
    /// No items. It takes no memory.
    pub(crate) fn new(alloc: Global) -> Stack<T>
        ensures { result ≡ [] }
    {
        Stack {
            items: Vec::new(alloc),
        }
    }

    /// The number of items.
    pub(crate) fn len(&self) -> usize
        ensures { result ≡ length self.now }
    {
        self.items.len()
    }

    /// Takes the item on top.
    pub(crate) fn pop(&mut self) -> Option<T>
        ensures { MatchOption result ((self.old ≡ []) × (self.new ≡ [])) (λ top. self.old ≡ top ∷ self.new) }
    {
        self.items.pop()
    }
}

impl<T: Drop> Stack<T> {
    /// Puts an item on top.
    pub(crate) fn push(&mut self, item: T) -> Result<(), Memory>
        ensures { OnOk result (self.new ≡ item ∷ self.old) }
    {
        self.items.push(item)?;
        Ok(())
    }

    /// Puts all these items on top, in their order.
    pub(crate) fn push_all(&mut self, mut above: Stack<T>) -> Result<(), Memory>
        ensures { OnOk result (self.new ≡ above ++ self.old) }
    {
        self.items.append(&mut above.items)?;
        Ok(())
    }

    /// Drops so many items from the top, or all where there are not so many.
    pub(crate) fn drop_top(&mut self, count: usize)
        ensures { self.new ≡ drop count self.old }
    {
        let kept = self.items.len().saturating_sub(count);
        self.items.truncate(kept);
    }
}

impl<T: Copy> Stack<T> {
    /// These items, the last one on top.
    pub(crate) fn from_slice(alloc: Global, items: &[T]) -> Result<Stack<T>, Memory>
        ensures { IfOk result (λ s. s ≡ reverse items.now) }
    {
        Ok(Stack {
            items: Vec::from_slice(alloc, items)?,
        })
    }

    /// Takes so many items from the top and puts them behind others, the one on top last.
    pub(crate) fn move_top(&mut self, count: usize, others: &mut Vec<T>) -> Result<(), Memory>
        requires { count ≤ length self.old }
        ensures { OnOk result ((others.new.items ≡ others.old.items ++ reverse (take count self.old)) × (self.new ≡ drop count self.old)) }
    {
        let kept = self.items.len() - count;
        others.extend_from_slice(&self.items[kept..])?;
        self.items.truncate(kept);
        Ok(())
    }
}
