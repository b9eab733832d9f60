//! Additional margin: so much more a contract, over any other rule.
ghost use Rattle.std.specs.Prelude.{◌≡◌, false, is_ok, if◌then◌else◌};
ghost use Rattle.margin.specs.Question.{within};
ghost use Rattle.margin.specs.Laws.{Alike, AtLeast};
ghost use Rattle.margin.specs.Rules.{additional_rule};
ghost use Rattle.margin.specs.Settings.{setting};
ghost use Rattle.margin.specs.Kept.{additional_lawful};

use crate::question::Question;
use crate::rule::{MOST, MarginRule};
use terms::fault::Fault;
use terms::ranges::Ranged;

/// Rials a contract.
pub type Extra = Ranged<0, 1_000_000_000_000>;

/// A rule whose answers are raised by so much a contract.
#[derive(Clone, Copy)]
pub struct Additional<R> {
    pub rule: R,
    extra: Extra,
}

impl<R: MarginRule> Additional<R> {
    /// Over a rule, with nothing more as yet: it asks what that rule asks.
    pub fn over(rule: R) -> Additional<R>
        ensures rule { result.rule ≡ rule }
        ensures extra { result.extra.value ≡ 0 }
        ensures alike { Alike (additional_rule result.extra.value (R.MarginRule.asked result.rule)) (R.MarginRule.asked rule) }
    {
        Additional {
            rule,
            extra: Extra::nought(),
        }
    }

    /// Sets what is asked more for a contract, from 0 to 10^12 rials.
    pub fn set(&mut self, extra: u64) -> Result<(), Fault>
        ensures answer { result ≡ setting (within 0 1000000000000 extra) tt }
        ensures extra { self.new.extra.value ≡ (if is_ok result then extra else self.old.extra.value) }
        ensures rule { self.new.rule ≡ self.old.rule }
        ensures same { is_ok result ≡ false → self.new ≡ self.old }
    {
        self.extra = Extra::try_from(extra)?;
        Ok(())
    }
}

impl<R: MarginRule> MarginRule for Additional<R> {
    ghost asked = { λ a. additional_rule a.extra.value (R.MarginRule.asked a.rule) };

    ghost laws = { λ a. additional_lawful _ _ (R.MarginRule.laws a.rule) };

    fn margins(&self, series: u32, size: u64, price: u64, count: u64) -> (u64, u64)
        ensures answer { result ≡ additional_rule self.now.extra.value (R.MarginRule.asked self.now.rule) series size price count }
        ensures more { AtLeast (R.MarginRule.asked self.now.rule series size price count) result }
    {
        let Some(question) = Question::new(series, size, price, count) else {
            return (0, 0);
        };
        let more = self.extra.get() * question.count.get();
        let (initial, minimum) = self.rule.margins(series, size, price, count);
        (
            initial.saturating_add(more).min(MOST),
            minimum.saturating_add(more).min(MOST),
        )
    }
}
