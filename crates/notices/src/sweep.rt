//! One pass over all customers.
ghost use Rattle.std.specs.Prelude.{◌≡◌, map, count_by};
ghost use Rattle.std.specs.List.{range_with_len};
ghost use Rattle.steps.specs.State.{customers as all};
ghost use Rattle.tables.specs.Views.{customer_of, customers_of, all_series_of};
ghost use Rattle.notices.specs.Turns.{due, due_at, turned_at};

use crate::turn::Turn;
use book::Book;
use exposure::deal::lacks;
use exposure::margins::Valuation;
use margin::rule::MarginRule;
use tables::customer::Customer;
use tables::customers::Customers;

/// Whether a customer with this balance is to be turned. The rule is asked only if it can be.
pub fn is_due<R: MarginRule>(
    customer: &Customer,
    balance: i64,
    valuation: &Valuation<R>,
    turn: Turn,
) -> bool
    ensures { result ≡ due (R.MarginRule.asked valuation.now.rule.now) (all_series_of valuation.now.series.now) turn (customer_of customer.now) balance }
{
    if customer.notice == turn.notice() {
        return false;
    }
    let (initial, minimum) = valuation.margins(&customer.positions);
    match turn {
        Turn::Call => lacks(balance, 0, minimum),
        Turn::Lift => !lacks(balance, 0, initial),
    }
}

/// Turns the notice of each customer that is due, account 1 first, and says how many were.
pub fn turn_notices<B: Book, R: MarginRule>(
    customers: &mut Customers,
    book: &B,
    valuation: &Valuation<R>,
    turn: Turn,
) -> u32
    ensures after { customers_of customers.new ≡ map (turned_at (R.MarginRule.asked valuation.now.rule.now) (all_series_of valuation.now.series.now) (B.Book.balances book.now) turn (customers_of customers.old)) (range_with_len 1 all) }
    ensures count { result ≡ count_by (due_at (R.MarginRule.asked valuation.now.rule.now) (all_series_of valuation.now.series.now) (B.Book.balances book.now) turn (customers_of customers.old)) (range_with_len 1 all) }
{
    let mut turned = 0;
    for (at, customer) in customers.rows.iter_mut().enumerate() {
        let balance = book.balance(at as u32 + 1);
        if is_due(customer, balance, valuation, turn) {
            customer.turn(turn.notice());
            turned += 1;
        }
    }
    turned
}
