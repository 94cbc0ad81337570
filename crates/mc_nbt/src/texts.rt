ghost use Rattle.std.specs.Prelude.{◌≡◌, ◌==◌, [], ◌∷◌, ◌++◌, List, ℕ, OnOk, OnErr, length};
ghost use Rattle.std.proofs.Common.{rules};
ghost use Rattle.std.specs.Cmp.Rules.{comparing};
ghost use Rattle.std.specs.Cmp.Lexicographic.{pointwise};
ghost use Rattle.std.specs.Bool.{nat_eq};

use crate::{Memory, Text};
use std::alloc::Global;
use std::marker::Model;

/// A list of texts.
#[derive(Debug, Drop)]
pub struct Texts {
    texts: Vec<Text>,
}

impl Model for Texts {
    ghost Value = { List (List ℕ) };

    ghost view = { λ t. t.texts.items };
}

impl Texts {
    /// No text.
    pub fn new(alloc: Global) -> Texts
        ensures { result ≡ [] }
    {
        Texts {
            texts: Vec::new(alloc),
        }
    }

    /// The texts in their order.
    pub fn as_slice(&self) -> &[Text]
        ensures { result.now ≡ self.now }
    {
        self.texts.as_slice()
    }

    /// The number of texts.
    pub fn len(&self) -> usize
        ensures { result ≡ length self.now }
    {
        self.as_slice().len()
    }

    /// Whether there is no text.
    pub fn is_empty(&self) -> bool
        ensures { result ≡ (length self.now == 0) }
    {
        self.as_slice().is_empty()
    }

    /// Adds the text at the end.
    ///
    /// # Errors
    ///
    /// `Memory` where there is no room for one more; the list is then as it was.
    pub fn push(&mut self, text: Text) -> Result<(), Memory>
        ensures ok { OnOk result (self.new ≡ self.old ++ text ∷ []) }
        ensures err { OnErr result (self.new ≡ self.old) }
    {
        self.texts.push(text)?;
        Ok(())
    }
}

impl PartialEq for Texts {
    ghost eq = { pointwise (pointwise nat_eq) };

    ghost laws = { Prim.search (comparing, rules) };

    fn eq(&self, other: &Texts) -> bool {
        self.as_slice() == other.as_slice()
    }
}

impl Eq for Texts {
    ghost laws = { Prim.search (comparing, rules) };
}
