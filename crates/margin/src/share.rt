//! The share rule: a rate of the value.
ghost use Rattle.std.specs.Prelude.{◌≡◌, ◌≤◌, false, ◌&&◌, is_ok, if◌then◌else◌};
ghost use Rattle.margin.specs.Question.{within};
ghost use Rattle.margin.specs.Laws.{most};
ghost use Rattle.margin.specs.Rules.{portion as portion_of, share_rule};
ghost use Rattle.margin.specs.Settings.{numbers_of, setting};
ghost use Rattle.margin.specs.Kept.{share_lawful};

use crate::question::Question;
use crate::rule::MarginRule;
use terms::fault::Fault;
use terms::ranges::Ranged;

/// A number of ten-thousandths.
pub type Parts = Ranged<1, 10_000>;

/// A rate of the value as the initial margin, and a part of that as the minimum.
#[derive(Clone, Copy)]
pub struct Share {
    rate: Parts,
    part: Parts,
}

impl Share {
    /// The rule of these numbers, each from 1 to 10,000.
    pub fn new(rate: u64, part: u64) -> Result<Share, Fault>
        ensures { numbers_of (λ s. (s.rate.value, s.part.value)) result ≡ setting (within 1 10000 rate && within 1 10000 part) (rate, part) }
    {
        Ok(Share {
            rate: Parts::try_from(rate)?,
            part: Parts::try_from(part)?,
        })
    }

    /// Sets both numbers anew, each from 1 to 10,000.
    pub fn set(&mut self, rate: u64, part: u64) -> Result<(), Fault>
        ensures answer { result ≡ setting (within 1 10000 rate && within 1 10000 part) tt }
        ensures rate { self.new.rate.value ≡ (if is_ok result then rate else self.old.rate.value) }
        ensures part { self.new.part.value ≡ (if is_ok result then part else self.old.part.value) }
        ensures same { is_ok result ≡ false → self.new ≡ self.old }
    {
        *self = Share::new(rate, part)?;
        Ok(())
    }
}

// So many ten-thousandths of an amount, rounded up.
fn portion(amount: u64, parts: Parts) -> u64
    requires { amount ≤ most }
    ensures { result ≡ portion_of amount parts.value }
{
    let exact = amount * parts.get();
    exact.div_ceil(10_000)
}

impl MarginRule for Share {
    ghost asked = { λ s. share_rule s.rate.value s.part.value };

    ghost laws = { λ s. share_lawful _ _ s.rate.high s.part.high };

    fn margins(&self, series: u32, size: u64, price: u64, count: u64) -> (u64, u64) {
        let Some(question) = Question::new(series, size, price, count) else {
            return (0, 0);
        };
        let initial = portion(question.value(), self.rate);
        (initial, portion(initial, self.part))
    }
}
