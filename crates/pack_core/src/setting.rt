//! Setting the glue of a list (TeX: The Program, part 33, §657 to §667 and §672 to §678).

ghost use Rattle.std.specs.Prelude.{◌≡◌, ◌≢◌, ◌-ℤ◌, ◌≤ℤ◌, ◌==◌, ◌^◌, if◌then◌else◌, pos, List, length};
ghost use Rattle.std.specs.Option.{IfSome};
ghost use Rattle.std.specs.List.{list_all};
ghost use Rattle.scaled_core.specs.Dimensions.{Within, fits};
ghost use Rattle.node_core.specs.declared.tree.Node.{Node};
ghost use Rattle.pack_core.specs.Glue.{highest, fraction, is_finite, stretched_setting, shrink_ratio, shrunk_setting, glue_setting, stretch_badness};
ghost use Rattle.pack_core.specs.Glue.{shrink_badness};
ghost use Rattle.pack_core.specs.Glue.{glue_badness, stretch_totals, shrink_totals};
ghost use Rattle.pack_core.specs.Boxes.{glue_totals, some_if};
ghost use Rattle.pack_core.specs.Orders.{order_amounts};
ghost use Rattle.pack_core.specs.Private.Orders.{by_order};
ghost use Rattle.pack_core.specs.Private.Steps.{dimens_of, glue_set};

use crate::orders::{OrderAmounts, OrderDimens};
use node_core::{Order, Setting};
use scaled_core::{Dimen, Ratio, badness};

/// The setting of glue, and its badness.
#[derive(Clone, Copy, Debug, PartialEq, Eq)]
pub struct GlueSet {
    pub setting: Setting,
    pub badness: u32,
}

/// The totals as dimensions, if they all fit.
#[tactic(auto, using(crate::proofs::Steps::steps))]
pub fn dimens_of(amounts: OrderAmounts) -> Option<OrderDimens>
    ensures { result ≡ dimens_of amounts }
{
    let normal = Dimen::from_wide(amounts.normal)?;
    let fil = Dimen::from_wide(amounts.fil)?;
    let fill = Dimen::from_wide(amounts.fill)?;
    let filll = Dimen::from_wide(amounts.filll)?;
    Some(OrderDimens {
        normal,
        fil,
        fill,
        filll,
    })
}

/// The total of this order.
fn in_order(totals: &OrderDimens, order: Order) -> Dimen
    ensures { result ≡ by_order totals.now order }
{
    match order {
        Order::Normal => totals.normal,
        Order::Fil => totals.fil,
        Order::Fill => totals.fill,
        Order::Filll => totals.filll,
    }
}

/// The highest order whose total is not 0.
#[tactic(auto, unfolding(crate::specs::Glue::highest))]
fn highest_order(totals: &OrderDimens) -> Option<Order>
    ensures value { result ≡ highest (by_order totals.now) }
    ensures not_zero { IfSome result (λ order. by_order totals.now order ≢ pos 0) }
{
    if totals.filll.get() != 0 {
        return Some(Order::Filll);
    }
    if totals.fill.get() != 0 {
        return Some(Order::Fill);
    }
    if totals.fil.get() != 0 {
        return Some(Order::Fil);
    }
    if totals.normal.get() != 0 {
        return Some(Order::Normal);
    }
    None
}

/// The exact fraction of an amount and a total that is not 0. Its denominator is above 0.
fn fraction(amount: i64, total: Dimen) -> Ratio
    requires amount { Within (2 ^ 31) amount }
    requires total { total ≢ pos 0 }
    ensures { result ≡ fraction amount total }
{
    let total = i64::from(total.get());
    if total < 0 {
        return Ratio::new(-amount, -total);
    }
    Ratio::new(amount, total)
}

/// The setting that stretches glue by an amount.
fn stretch_setting(amount: i64, totals: &OrderDimens) -> Setting
    requires { Within (2 ^ 31) amount }
    ensures { result ≡ stretched_setting amount (by_order totals.now) (highest (by_order totals.now)) }
{
    match highest_order(totals) {
        None => Setting::Natural,
        Some(order) => Setting::Stretch {
            order,
            ratio: fraction(amount, in_order(totals, order)),
        },
    }
}

/// The ratio by which glue of an order shrinks by an amount. Glue of normal order shrinks by at most its total, so its ratio is at most 1.
fn shrink_ratio(amount: i64, totals: &OrderDimens, order: Order) -> Ratio
    requires amount { Within (2 ^ 31) amount }
    requires total { by_order totals.now order ≢ pos 0 }
    ensures { result ≡ shrink_ratio amount (by_order totals.now) order }
{
    match order {
        Order::Normal => {
            if amount > i64::from(totals.normal.get()) {
                Ratio::new(1, 1)
            } else {
                fraction(amount, totals.normal)
            }
        }
        Order::Fil => fraction(amount, totals.fil),
        Order::Fill => fraction(amount, totals.fill),
        Order::Filll => fraction(amount, totals.filll),
    }
}

/// The setting that shrinks glue by an amount.
fn shrink_setting(amount: i64, totals: &OrderDimens) -> Setting
    requires { Within (2 ^ 31) amount }
    ensures { result ≡ shrunk_setting amount (by_order totals.now) (highest (by_order totals.now)) }
{
    match highest_order(totals) {
        None => Setting::Natural,
        Some(order) => Setting::Shrink {
            order,
            ratio: shrink_ratio(amount, totals, order),
        },
    }
}

/// The setting for this excess, which is the size of the box minus the natural size of the list: glue stretches if it is above 0, and shrinks if it
/// is below 0.
fn set_to(excess: i64, stretch: &OrderDimens, shrink: &OrderDimens) -> Setting
    requires { Within (2 ^ 31) excess }
    ensures { result ≡ glue_setting excess (by_order stretch.now) (by_order shrink.now) }
{
    if excess > 0 {
        return stretch_setting(excess, stretch);
    }
    if excess < 0 {
        return shrink_setting(-excess, shrink);
    }
    Setting::Natural
}

/// Whether the glue that is set is of normal order, or no glue is set.
fn is_finite(order: Option<Order>) -> bool
    ensures { result ≡ is_finite order }
{
    match order {
        None => true,
        Some(Order::Normal) => true,
        Some(_) => false,
    }
}

/// The badness of stretching by an amount; 0 if glue of an infinite order is set.
fn stretching_badness(amount: i64, totals: &OrderDimens) -> u32
    requires { pos 0 ≤ℤ amount }
    ensures { result ≡ stretch_badness amount (by_order totals.now) }
{
    if !is_finite(highest_order(totals)) {
        return 0;
    }
    badness(amount, i64::from(totals.normal.get()))
}

/// The badness of shrinking by an amount: 1000000, overfull, if glue of normal order cannot shrink by that much; 0 if glue of an infinite order is
/// set.
fn shrinking_badness(amount: i64, totals: &OrderDimens) -> u32
    requires { pos 0 ≤ℤ amount }
    ensures { result ≡ shrink_badness amount (by_order totals.now) }
{
    let order = highest_order(totals);
    if !is_finite(order) {
        return 0;
    }
    let most = i64::from(totals.normal.get());
    if amount > most {
        return 1_000_000;
    }
    badness(amount, most)
}

/// The badness of this excess, which is the size of the box minus the natural size of the list.
fn excess_badness(excess: i64, stretch: &OrderDimens, shrink: &OrderDimens) -> u32
    requires { Within (2 ^ 31) excess }
    ensures { result ≡ glue_badness excess (by_order stretch.now) (by_order shrink.now) }
{
    if excess > 0 {
        return stretching_badness(excess, stretch);
    }
    if excess < 0 {
        return shrinking_badness(-excess, shrink);
    }
    0
}

/// The badness of a list with this excess, which is the size of the box minus the natural size of the list. An empty list has badness 0.
fn list_badness(empty: bool, excess: i64, stretch: &OrderDimens, shrink: &OrderDimens) -> u32
    requires { Within (2 ^ 31) excess }
    ensures { result ≡ (if empty then 0 else glue_badness excess (by_order stretch.now) (by_order shrink.now)) }
{
    if empty {
        return 0;
    }
    excess_badness(excess, stretch, shrink)
}

/// The setting and the badness of a list with this natural size that is packed to this size, if all amounts of stretch and shrink fit.
#[tactic(auto, using(crate::proofs::Steps::steps))]
pub fn set_glue(
    size: Dimen,
    natural: Dimen,
    empty: bool,
    stretch: OrderAmounts,
    shrink: OrderAmounts,
) -> Option<GlueSet>
    ensures { (nodes : List Node) → empty ≡ (length nodes == 0) → stretch ≡ order_amounts (stretch_totals nodes)
        → shrink ≡ order_amounts (shrink_totals nodes) →
        result ≡ some_if (list_all fits (glue_totals nodes)) (glue_set (size -ℤ natural) nodes) }
{
    let stretch = dimens_of(stretch)?;
    let shrink = dimens_of(shrink)?;
    let excess = size.exact_sub(natural);
    Some(GlueSet {
        setting: set_to(excess, &stretch, &shrink),
        badness: list_badness(empty, excess, &stretch, &shrink),
    })
}
