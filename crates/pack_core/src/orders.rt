//! Amounts of the four orders of glue.

ghost use Rattle.std.specs.Prelude.{◌≡◌, ◌+◌, ◌+ℤ◌, ◌^◌, ℕ, pos, if◌then◌else◌};
ghost use Rattle.scaled_core.specs.Dimensions.{Fits, Within};
ghost use Rattle.pack_core.specs.Items.{is_order};
ghost use Rattle.pack_core.specs.Orders.{order_amounts, plus, AreWithin};

use node_core::Order;
use scaled_core::Dimen;

/// An amount for each order, in scaled points. Each is an exact sum, which may be no dimension.
#[derive(Clone, Copy, Debug, PartialEq, Eq)]
pub struct OrderAmounts {
    pub normal: i128,
    pub fil: i128,
    pub fill: i128,
    pub filll: i128,
}

/// A dimension for each order.
#[derive(Clone, Copy, Debug, PartialEq, Eq)]
pub struct OrderDimens {
    pub normal: Dimen,
    pub fil: Dimen,
    pub fill: Dimen,
    pub filll: Dimen,
}

/// The amount 0 in each order.
pub fn no_amounts() -> OrderAmounts
    ensures { result ≡ order_amounts (λ _. pos 0) }
{
    OrderAmounts {
        normal: 0,
        fil: 0,
        fill: 0,
        filll: 0,
    }
}

/// The sum of an amount and a dimension.
fn add_dimen(amount: i128, by: Dimen) -> i128
    requires { Within (2 ^ 100) amount }
    ensures value { result ≡ amount +ℤ by }
    ensures part { Fits by }
{
    amount + i128::from(by.get())
}

/// The sum of two amounts.
pub(crate) fn sum_of(amount: i128, other: i128) -> i128
    requires small { Within (2 ^ 100) amount }
    requires other_small { Within (2 ^ 100) other }
    ensures { result ≡ amount +ℤ other }
{
    amount + other
}

impl OrderAmounts {
    /// The sums of the amounts of each order.
    pub(crate) fn sum_with(&self, other: &OrderAmounts) -> OrderAmounts
        requires small { AreWithin (2 ^ 100) self.now }
        requires other_small { AreWithin (2 ^ 100) other.now }
        ensures normal { result.normal ≡ self.now.normal +ℤ other.now.normal }
        ensures fil { result.fil ≡ self.now.fil +ℤ other.now.fil }
        ensures fill { result.fill ≡ self.now.fill +ℤ other.now.fill }
        ensures filll { result.filll ≡ self.now.filll +ℤ other.now.filll }
    {
        OrderAmounts {
            normal: self.normal + other.normal,
            fil: self.fil + other.fil,
            fill: self.fill + other.fill,
            filll: self.filll + other.filll,
        }
    }

    /// Adds a dimension to the amount of one order. The amounts of the other orders stay as they are.
    #[inline(always)]
    pub fn add(&mut self, order: Order, amount: Dimen)
        requires { AreWithin (2 ^ 100) self.old }
        ensures value { self.new ≡ plus self.old (λ other. if is_order other order then amount else pos 0) }
        ensures bound { (n : ℕ) → AreWithin n self.old → AreWithin (n + 2 ^ 31) self.new }
    {
        match order {
            Order::Normal => self.normal = add_dimen(self.normal, amount),
            Order::Fil => self.fil = add_dimen(self.fil, amount),
            Order::Fill => self.fill = add_dimen(self.fill, amount),
            Order::Filll => self.filll = add_dimen(self.filll, amount),
        }
    }
}
