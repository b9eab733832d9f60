//! Amounts as they are read: in groups of three digits.
use std::fmt;

/// An amount in rials, or a debt, printed as 1,234,567.
#[derive(Clone, Copy)]
pub struct Rials(i128);

impl Rials {
    pub fn of<N: Into<i128>>(amount: N) -> Rials {
        Rials(amount.into())
    }
}

fn write_groups<W: fmt::Write>(f: &mut fmt::Formatter<W>, amount: u128) -> fmt::Result {
    if amount < 1_000 {
        return write!(f, "{amount}");
    }
    write_groups(f, amount / 1_000)?;
    let group = amount % 1_000;
    write!(f, ",{group:03}")
}

impl fmt::Display for Rials {
    fn fmt<W: fmt::Write>(&self, f: &mut fmt::Formatter<W>) -> fmt::Result {
        if self.0 < 0 {
            f.write_str("-")?;
        }
        write_groups(f, self.0.unsigned_abs())
    }
}
