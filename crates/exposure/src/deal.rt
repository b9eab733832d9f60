//! What a deal and a mark post.
ghost use Rattle.std.specs.Prelude.{◌≡◌, ◌≤◌, pos, ◌+ℤ◌, ◌-ℤ◌, ◌*ℤ◌, neg_ℤ, unsigned_abs};
ghost use Rattle.steps.specs.Margins.{lacks as lacks_margin};
ghost use Rattle.steps.specs.Deals.{gain as gain_of, fees as fees_of, bought, sold, closes as closes_by};
ghost use Rattle.tables.specs.Views.{series_of};

use tables::position::Position;
use tables::series::Series;
use terms::ranges::{Count, Price, Ranged};

/// What a deal posts: to the buyer, to the seller, and to the house, which receives both fees.
#[derive(Clone, Copy)]
pub struct Shares {
    pub buyer: i64,
    pub seller: i64,
    pub house: i64,
}

impl Shares {
    // What the buyer gains, the seller loses; each pays the fees.
    fn of(gain: i64, fees: i64) -> Shares
        requires gain { unsigned_abs gain ≤ 1000000000000000 }
        requires fees { unsigned_abs fees ≤ 1000000000 }
        ensures buyer { result.buyer ≡ gain -ℤ fees }
        ensures seller { result.seller ≡ neg_ℤ gain -ℤ fees }
        ensures house { result.house ≡ fees +ℤ fees }
    {
        Shares {
            buyer: gain - fees,
            seller: -gain - fees,
            house: fees + fees,
        }
    }
}

// What a holder gains as the price moves. That it is small is said here and of `gain`, and asked by `Shares::of`: a type
// for it would be made and taken apart between the three.
fn moved(position: Position, size: Ranged<0, 1_000>, by: i64) -> i64
    requires { unsigned_abs by ≤ 1000000000 }
    ensures value { result ≡ position.contracts *ℤ pos size.value *ℤ by }
    ensures turned { result ≡ by *ℤ pos size.value *ℤ position.contracts }
    ensures small { unsigned_abs result ≤ 1000000000000000 }
{
    // `as`, here and below: no `From` makes an `i64` of a `u64`, and the check proves that nothing is lost.
    position.get() * size.get() as i64 * by
}

// What a buyer gains by the price that stands.
fn gain(series: &Series, count: Count, price: Price) -> i64
    ensures value { result ≡ gain_of (series_of series.now) count.value price.value }
    ensures small { unsigned_abs result ≤ 1000000000000000 }
{
    let by = series.price.get() as i64 - price.get() as i64;
    moved(Position::long(count), series.size, by)
}

// What each party pays the house.
fn fees(series: &Series, count: Count) -> i64
    ensures value { result ≡ fees_of (series_of series.now) count.value }
    ensures small { unsigned_abs result ≤ 1000000000 }
{
    (series.fee.get() * count.get()) as i64
}

/// What a deal of so many contracts at a price posts, by the price that stands.
pub fn deal(series: &Series, count: Count, price: Price) -> Shares
    ensures buyer { result.buyer ≡ bought (series_of series.now) count.value price.value }
    ensures seller { result.seller ≡ sold (series_of series.now) count.value price.value }
    ensures house { result.house ≡ fees_of (series_of series.now) count.value +ℤ fees_of (series_of series.now) count.value }
{
    Shares::of(gain(series, count, price), fees(series, count))
}

/// Whether a position that moves so closes: it goes towards nought and does not pass it.
pub fn closes(held: Position, by: Position) -> bool
    ensures { result ≡ closes_by held.contracts by.contracts }
{
    let after = held.get() + by.get();
    after.unsigned_abs() + by.count() == held.count()
}

/// What a holder is posted when its series is marked at a new price.
pub fn revalued(position: Position, series: &Series, price: Price) -> i64
    ensures { result ≡ position.contracts *ℤ pos (series_of series.now).size *ℤ (pos price.value -ℤ pos (series_of series.now).price) }
{
    let by = price.get() as i64 - series.price.get() as i64;
    moved(position, series.size, by)
}

/// Whether a balance is below a margin once an amount is posted.
pub fn lacks(balance: i64, amount: i64, margin: u64) -> bool
    ensures { result ≡ lacks_margin (balance +ℤ amount) margin }
{
    // Wide enough for any sum.
    i128::from(balance) + i128::from(amount) < i128::from(margin)
}
