// What macro lines say under a namespace: each is printed as it stands there.
ghost use Rattle.std.specs.Prelude.{[], Some};
ghost use Rattle.mc_cmd.specs.Grammar.{test_text};
ghost use Rattle.mc_cmd.specs.View.{range_view};
ghost use Rattle.mc_cmd.specs.Word as words;
ghost use Rattle.cc_line.specs.Step.{check_test};
ghost use Rattle.cc_line.specs.View.{check_view, cond_view, conds_view, open_site_view};
ghost use Rattle.cc_line.specs.steps.OpenWords as spec;

use crate::{Check, Cond, Conds, OpenSite};
use mc_cmd::{Range, cmp_word};
use mc_nbt::Text;
use std::fmt;

// A storage and a path.
#[derive(Clone, Copy)]
pub(crate) struct PlaceUnder<'a> {
    pub(crate) ns: &'a Text,
    pub(crate) site: OpenSite,
}

impl fmt::Display for PlaceUnder<'_> {
    ghost output = { λ p. Some (spec.place_text p.ns.now (open_site_view p.site)) };

    fn fmt<W: fmt::Write>(&self, f: &mut fmt::Formatter<W>) -> fmt::Result {
        let PlaceUnder { ns, site } = self;
        let store = site.store;
        write!(f, "{ns}:{store} {site}")
    }
}

// Conditions, one behind the other.
#[derive(Clone, Copy)]
pub(crate) struct CondsUnder<'a> {
    pub(crate) ns: &'a Text,
    pub(crate) conds: Conds,
}

impl fmt::Display for CondsUnder<'_> {
    ghost output = { λ c. Some (spec.conds_text c.ns.now (conds_view c.conds)) };

    fn fmt<W: fmt::Write>(&self, f: &mut fmt::Formatter<W>) -> fmt::Result {
        let ns = self.ns;
        match self.conds {
            Conds::One(cond) => write!(f, "{}", CondUnder { ns, cond }),
            Conds::Two(cond, other) => {
                write!(
                    f,
                    "{}{}",
                    CondUnder { ns, cond },
                    CondUnder { ns, cond: other }
                )
            }
        }
    }
}

#[derive(Clone, Copy)]
struct CondUnder<'a> {
    ns: &'a Text,
    cond: Cond,
}

impl fmt::Display for CondUnder<'_> {
    ghost output = { λ c. Some (spec.cond_text c.ns.now (cond_view c.cond)) };

    fn fmt<W: fmt::Write>(&self, f: &mut fmt::Formatter<W>) -> fmt::Result {
        let ns = self.ns;
        match self.cond {
            Cond::Holds(check) => write!(f, "if {}", CheckUnder { ns, check }),
            Cond::Fails(check) => write!(f, "unless {}", CheckUnder { ns, check }),
        }
    }
}

#[derive(Clone, Copy)]
struct CheckUnder<'a> {
    ns: &'a Text,
    check: Check,
}

impl fmt::Display for CheckUnder<'_> {
    ghost output = { λ c. Some (test_text (check_test c.ns.now (check_view c.check)) []) };

    fn fmt<W: fmt::Write>(&self, f: &mut fmt::Formatter<W>) -> fmt::Result {
        let ns = self.ns;
        match self.check {
            Check::InRange(spot, range) => {
                write!(f, "score {spot} {ns} matches {} ", RangeWord(range))
            }
            Check::Compare(spot, cmp, other) => {
                let cmp = cmp_word(cmp);
                write!(f, "score {spot} {ns} {cmp} {other} {ns} ")
            }
            Check::Stands(site) => {
                let store = site.store;
                write!(f, "data storage {ns}:{store} {site} ")
            }
        }
    }
}

#[derive(Clone, Copy)]
struct RangeWord(Range);

impl fmt::Display for RangeWord {
    ghost output = { λ r. Some (words.range_text (range_view r.0)) };

    fn fmt<W: fmt::Write>(&self, f: &mut fmt::Formatter<W>) -> fmt::Result {
        match self.0 {
            Range::One(n) => write!(f, "{n}"),
            Range::From(n) => write!(f, "{n}.."),
            Range::To(n) => write!(f, "..{n}"),
            Range::Both(n, m) => write!(f, "{n}..{m}"),
        }
    }
}
