//! Postings to many accounts, made all or none.
ghost use Rattle.std.specs.Prelude.{◌≡◌, ℕ, ◌-◌, ◌*◌, ◌≤◌, true, false, ◌+ℤ◌, is_ok, if◌then◌else◌, None, Ok};
ghost use Rattle.book.specs.Balances.{of_account, total};
ghost use Rattle.book.specs.Postings.{added, postings, lowest_out, all_answer};
ghost use Rattle.book.specs.Reasons.{Reason};

use super::balance::{ACCOUNTS, balance_after};
use super::kind::Book;
use terms::fault::Fault;

/// The net amount for each account, account 1 first; where it is 0 there is no posting.
pub type NetAmounts = [i64; ACCOUNTS as usize];

// The lowest account whose balance would leave its bounds.
fn lowest_out<B: Book>(book: &B, amounts: &NetAmounts) -> Option<u32>
    ensures answer { result ≡ lowest_out 1 (B.balances book.now) amounts.now }
{
    for (i, amount) in amounts.iter().enumerate() {
        let account = i as u32 + 1;
        if balance_after(book.balance(account), *amount).is_none() {
            return Some(account);
        }
    }
    None
}

fn count_postings(amounts: &NetAmounts) -> u64
    ensures value { result ≡ postings amounts.now }
    ensures most { result ≤ 64 }
{
    amounts.iter().filter(|amount| **amount != 0).count() as u64
}

// Tests all postings and makes none.
fn test_all<B: Book>(book: &B, amounts: &NetAmounts) -> Result<(), Fault>
    ensures answer { result ≡ all_answer (B.balances book.now) (B.lines book.now) B.COST amounts.now }
    ensures reason { Reason (B.balances book.now) (B.lines book.now) B.COST amounts.now result }
{
    if let Some(account) = lowest_out(book, amounts) {
        return Err(Fault::OutOfBounds { account });
    }
    if book.lines_left() < B::COST * count_postings(amounts) {
        return Err(Fault::NoLines);
    }
    Ok(())
}

// Makes postings that were tested, so that none is refused.
fn make_all<B: Book>(book: &mut B, amounts: &NetAmounts) -> Result<(), Fault>
    requires inside { lowest_out 1 (B.balances book.old) amounts.now ≡ None }
    requires paid { B.COST * postings amounts.now ≤ B.lines book.old }
    ensures made { result ≡ Ok tt }
    ensures after { B.balances book.new ≡ added (B.balances book.old) amounts.now }
    ensures spent { B.lines book.new ≡ B.lines book.old - B.COST * postings amounts.now }
    ensures place { B.kept book.old book.new }
    ensures each { (n : ℕ) → of_account (B.balances book.new) n ≡ of_account (B.balances book.old) n +ℤ of_account amounts.now n }
    ensures sum { total (B.balances book.new) ≡ total (B.balances book.old) +ℤ total amounts.now }
{
    for (i, amount) in amounts.iter().enumerate() {
        if *amount != 0 {
            book.post(i as u32 + 1, *amount)?;
        }
    }
    Ok(())
}

/// Posts each amount that is not 0 to its account, or refuses and posts none.
pub fn post_all<B: Book>(book: &mut B, amounts: &NetAmounts) -> Result<(), Fault>
    ensures answer { result ≡ all_answer (B.balances book.old) (B.lines book.old) B.COST amounts.now }
    ensures after { B.balances book.new ≡ (if is_ok result then added (B.balances book.old) amounts.now else B.balances book.old) }
    ensures spent { B.lines book.new ≡ (if is_ok result then B.lines book.old - B.COST * postings amounts.now else B.lines book.old) }
    ensures place { B.kept book.old book.new }
    ensures whole { is_ok result ≡ false → book.new ≡ book.old }
    ensures reason { Reason (B.balances book.old) (B.lines book.old) B.COST amounts.now result }
    ensures each { is_ok result ≡ true → (n : ℕ) → of_account (B.balances book.new) n ≡ of_account (B.balances book.old) n +ℤ of_account amounts.now n }
    ensures sum { is_ok result ≡ true → total (B.balances book.new) ≡ total (B.balances book.old) +ℤ total amounts.now }
{
    test_all(book, amounts)?;
    make_all(book, amounts)
}
