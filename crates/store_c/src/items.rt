//! The remaining items of a plan, for C.
ghost use Rattle.std.specs.Prelude.{◌≡◌, length, map, min, take, drop};
ghost use Rattle.store_c.specs.Items.{item_of};

use session::{Item, Repairs};

/// An item of a plan in C's layout: a lost fragment, with the name and the version of its blob.
#[repr(C)]
#[derive(Clone, Copy, Drop)]
pub struct PlanItem<'a> {
    pub name: &'a [u8],
    pub version: u64,
    pub stripe: u64,
    pub fragment: u64,
}

/// An item for C.
fn item_for(item: &Item) -> PlanItem<'_>
    ensures { item_of result ≡ item.now }
{
    PlanItem {
        name: item.name.as_str().as_bytes(),
        version: item.version,
        stripe: item.stripe,
        fragment: u64::from(item.f),
    }
}

/// Lends the first remaining items, in order, as many as there are and `target` takes. Returns
/// their number.
pub(crate) fn lend_items<'a>(repairs: &'a Repairs, target: &mut [PlanItem<'a>]) -> usize
    ensures count { result ≡ min (length target.old) (length repairs.now.items) }
    ensures items { map item_of (take result target.new) ≡ take result repairs.now.items }
    ensures unchanged { drop result target.new ≡ drop result target.old }
{
    let mut at = 0;
    while at < target.len() {
        let Some(item) = repairs.get(at) else {
            break;
        };
        target[at] = item_for(item);
        at += 1;
    }
    at
}
