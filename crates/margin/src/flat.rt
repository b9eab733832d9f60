//! The flat rule: so much a contract, for each series.
ghost use Rattle.std.specs.Prelude.{◌≡◌, replicate, is_ok, if◌then◌else◌};
ghost use Rattle.margin.specs.Question.{within};
ghost use Rattle.margin.specs.Settings.{setting};
ghost use Rattle.margin.specs.Flats.{table, flat_asks, flat_keeps, with_tariff, alike};

use crate::question::Question;
use crate::rule::MarginRule;
use crate::tariff::Tariff;
use terms::fault::Fault;
use terms::ranges::SeriesNumber;

/// A tariff for each series.
#[derive(Clone, Copy)]
pub struct Flat {
    tariffs: [Tariff; 24],
}

impl Flat {
    /// A rule that asks nothing for any series.
    pub fn new() -> Flat
        ensures { table result ≡ replicate 24 (0, 0) }
    {
        Flat::uniform(Tariff::NOUGHT)
    }

    /// One tariff for every series.
    pub fn uniform(tariff: Tariff) -> Flat
        ensures { result ≡ alike tariff }
    {
        Flat {
            tariffs: [tariff; 24],
        }
    }

    /// Gives one series another tariff.
    pub fn set(&mut self, series: u32, tariff: Tariff) -> Result<(), Fault>
        ensures answer { result ≡ setting (within 1 24 series) tt }
        ensures after { self.new ≡ (if is_ok result then with_tariff self.old series tariff else self.old) }
    {
        let number = SeriesNumber::try_from(u64::from(series))?;
        self.tariffs[number.index()] = tariff;
        Ok(())
    }
}

impl MarginRule for Flat {
    ghost asked = { flat_asks };

    ghost laws = { flat_keeps };

    fn margins(&self, series: u32, size: u64, price: u64, count: u64) -> (u64, u64) {
        let Some(Question { series, count, .. }) = Question::new(series, size, price, count) else {
            return (0, 0);
        };
        let tariff = self.tariffs[series.index()];
        (tariff.initial * count.get(), tariff.minimum * count.get())
    }
}
