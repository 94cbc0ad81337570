// The kinds of trees, as the elements of a list agree on them.
ghost use Rattle.std.specs.Prelude.{◌≡◌, nat_eq, option_map};
ghost use Rattle.mc_nbt.specs.steps.Reading.{allows};
ghost use Rattle.mc_nbt.specs.steps.Scanning.{first_kind};
ghost use Rattle.mc_nbt.specs.steps.ScanView.{number};
ghost use Rattle.mc_nbt.specs.Tree.{kind};
ghost use Rattle.mc_nbt.specs.View.{view};

use crate::Nbt;

#[derive(Clone, Copy, Debug, PartialEq, Eq)]
pub(crate) enum TreeKind {
    Int,
    Str,
    List,
    Compound,
}

// Whether a tree of this kind may stand where one of the wanted kind, if any, is to stand.
pub(crate) fn allows_kind(wanted: Option<TreeKind>, kind: TreeKind) -> bool
    ensures { result ≡ allows (option_map number wanted) (number kind) }
{
    match wanted {
        None => true,
        Some(k) => k == kind,
    }
}

// The kind of a list's elements once one of this kind is added.
pub(crate) fn kind_with(elements: Option<TreeKind>, kind: TreeKind) -> TreeKind
    ensures { number result ≡ first_kind (option_map number elements) (number kind) }
{
    elements.unwrap_or(kind)
}

pub(crate) fn kind_of(tree: &Nbt) -> TreeKind
    ensures { number result ≡ kind (view tree.now) }
{
    match tree {
        Nbt::Int(_) => TreeKind::Int,
        Nbt::Str(_) => TreeKind::Str,
        Nbt::List(_) => TreeKind::List,
        Nbt::Compound(_) => TreeKind::Compound,
    }
}

// Whether both trees are of one kind.
pub(crate) fn are_one_kind(left: &Nbt, right: &Nbt) -> bool
    ensures { result ≡ nat_eq (kind (view left.now)) (kind (view right.now)) }
{
    kind_of(left) == kind_of(right)
}
