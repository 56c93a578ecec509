//! Amounts of stretch and shrink.

ghost use Rattle.std.specs.Prelude.{◌≡◌};
ghost use Rattle.boxglue_script.specs.Private.Reading.{amount_in, amount_of, no_amount, number_in_points};

use crate::cause::Cause;
use node_core::Order;
use scaled_core::{Dimen, parse_dimen, parse_points};

/// The stretch or the shrink of glue: its size in scaled points, and its order.
#[derive(Clone, Copy, Debug, PartialEq, Eq)]
pub struct Amount {
    pub size: Dimen,
    pub order: Order,
}

impl Amount {
    /// No stretch or shrink.
    pub fn none() -> Amount
        ensures { result ≡ no_amount }
    {
        Amount {
            size: Dimen::ZERO,
            order: Order::Normal,
        }
    }
}

/// The amount that a field writes: a dimension, or a number with the unit `fil`, `fill` or `filll`.
#[tactic(auto, unfolding(crate::specs::Private::Reading::amount_of, crate::specs::Private::Reading::before_unit))]
pub fn amount_of(field: &[u8]) -> Result<Amount, Cause>
    ensures { result ≡ amount_of field.now }
{
    if let Some(number) = field.strip_suffix(b"filll") {
        return number_in_points(Order::Filll, number);
    }
    if let Some(number) = field.strip_suffix(b"fill") {
        return number_in_points(Order::Fill, number);
    }
    if let Some(number) = field.strip_suffix(b"fil") {
        return number_in_points(Order::Fil, number);
    }
    amount_in(Order::Normal, field)
}

/// The amount of that order whose value is that of a number in points: `1fil` is 65536, since amounts of all orders are dimensions.
#[tactic(auto, unfolding(crate::specs::Private::Reading::amount_in))]
fn number_in_points(order: Order, number: &[u8]) -> Result<Amount, Cause>
    ensures { result ≡ number_in_points order number.now }
{
    let size = parse_points(number)?;
    Ok(Amount { size, order })
}

/// The amount of that order whose value is that of a dimension.
#[tactic(auto, unfolding(crate::specs::Private::Reading::amount_in))]
fn amount_in(order: Order, text: &[u8]) -> Result<Amount, Cause>
    ensures { result ≡ amount_in order text.now }
{
    let size = parse_dimen(text)?;
    Ok(Amount { size, order })
}
