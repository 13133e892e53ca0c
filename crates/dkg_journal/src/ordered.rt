//! Names as keys of a tree, in the order of a disk's files: the plan, the flat file, the segments rising.
ghost use Rattle.std.specs.Prelude.{◌≡◌, Some, refl};
ghost use Rattle.std.specs.Ordering.{eq_by_cmp, nat_cmp};
ghost use Rattle.std.specs.Cmp.{eq_by_cmp_equiv, nat_cmp_total, on_total, partial_equiv_from_equiv, partial_order_from_agreeing_total};
ghost use Rattle.dkg_journal.specs.Names.{name_cmp, name_number};

use dkg_values::Name;
use std::cmp::Ordering;
use std::marker::Model;

/// A name that is compared by where it stands in the order.
#[derive(Drop)]
pub struct Ordered {
    pub name: Name,
}

impl Model for Ordered {
    ghost use Rattle.dkg_values.specs.declared.name.Name.{Name};

    ghost Value = { Name };

    ghost view = { λ o. o.name };
}

/// Where a name stands beside another.
fn compare(a: Name, b: Name) -> Ordering
    ensures { result ≡ name_cmp a b }
{
    match (a, b) {
        (Name::Segment(x), Name::Segment(y)) => x.cmp(&y),
        (Name::Plan, Name::Plan) => Ordering::Equal,
        (Name::Flat, Name::Flat) => Ordering::Equal,
        (Name::Plan, _) => Ordering::Less,
        (Name::Flat, Name::Segment(_)) => Ordering::Less,
        _ => Ordering::Greater,
    }
}

impl PartialEq for Ordered {
    ghost eq = { λ x y. eq_by_cmp name_cmp x y };

    ghost laws = { partial_equiv_from_equiv (eq_by_cmp_equiv (on_total name_number nat_cmp_total)) };

    fn eq(&self, other: &Ordered) -> bool {
        self.cmp(other).is_eq()
    }
}

impl Eq for Ordered {
    ghost laws = { eq_by_cmp_equiv (on_total name_number nat_cmp_total) };
}

impl PartialOrd for Ordered {
    ghost partial_cmp = { λ x y. Some (name_cmp x y) };

    ghost laws = { partial_order_from_agreeing_total name_cmp (on_total name_number nat_cmp_total) (λ x y. refl) (λ x y. refl) };

    fn partial_cmp(&self, other: &Ordered) -> Option<Ordering> {
        Some(self.cmp(other))
    }
}

impl Ord for Ordered {
    ghost cmp = { name_cmp };

    ghost total = { on_total name_number nat_cmp_total };

    ghost matches_partial_cmp = { λ x y. refl };

    ghost matches_eq = { λ x y. refl };

    fn cmp(&self, other: &Ordered) -> Ordering {
        compare(self.name, other.name)
    }
}
