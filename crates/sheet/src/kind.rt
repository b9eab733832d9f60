//! The thirteen calls by their codes, and the fields that each of them uses.
ghost use Rattle.std.specs.Prelude.{◌≡◌, ◌^◌, ◌<◌, unwrap_or};
ghost use Rattle.std.specs.Option.{ok_or};
ghost use Rattle.terms.specs.declared.fault.Fault.TheVariants.{Code};
ghost use Rattle.sheet.specs.Kinds.{kind_of, code_of, uses_of, call_of, kind_in, numbers_in};

use terms::call::Call;
use terms::fault::Fault;

/// A call without its numbers, under its code.
#[derive(Clone, Copy, PartialEq, Eq, Debug)]
pub(crate) enum Kind {
    Begin = 1,
    Enrol,
    List,
    Deposit,
    Withdraw,
    Trade,
    Late,
    Shut,
    Mark,
    Final,
    Force,
    Cover,
    Notices,
}

/// One value for each field of a line after its code, in the line's order: its width, whether a call uses it, or what stands in it.
#[derive(Clone, Copy, PartialEq, Eq, Default, Debug)]
pub(crate) struct Fields<T> {
    pub first: T,
    pub second: T,
    pub series: T,
    pub count: T,
    pub price: T,
    pub amount: T,
}

/// The call with this code.
impl TryFrom<u64> for Kind {
    type Error = Fault;

    ghost try_from_gives = { λ code result. result ≡ ok_or (kind_of code) Code };

    fn try_from(code: u64) -> Result<Kind, Fault> {
        match code {
            1 => Ok(Kind::Begin),
            2 => Ok(Kind::Enrol),
            3 => Ok(Kind::List),
            4 => Ok(Kind::Deposit),
            5 => Ok(Kind::Withdraw),
            6 => Ok(Kind::Trade),
            7 => Ok(Kind::Late),
            8 => Ok(Kind::Shut),
            9 => Ok(Kind::Mark),
            10 => Ok(Kind::Final),
            11 => Ok(Kind::Force),
            12 => Ok(Kind::Cover),
            13 => Ok(Kind::Notices),
            _ => Err(Fault::Code),
        }
    }
}

/// Its code.
impl From<Kind> for u64 {
    ghost from_gives = { λ kind code. code ≡ code_of kind };

    fn from(kind: Kind) -> u64 {
        kind as u64
    }
}

impl From<Call> for Kind {
    ghost from_gives = { λ call kind. kind ≡ kind_in call };

    fn from(call: Call) -> Kind {
        match call {
            Call::Begin => Kind::Begin,
            Call::Enrol { .. } => Kind::Enrol,
            Call::List { .. } => Kind::List,
            Call::Deposit { .. } => Kind::Deposit,
            Call::Withdraw { .. } => Kind::Withdraw,
            Call::Trade { .. } => Kind::Trade,
            Call::Late => Kind::Late,
            Call::Shut => Kind::Shut,
            Call::Mark { .. } => Kind::Mark,
            Call::Final { .. } => Kind::Final,
            Call::Force { .. } => Kind::Force,
            Call::Cover { .. } => Kind::Cover,
            Call::Notices => Kind::Notices,
        }
    }
}

/// The numbers of a call, each in its field.
impl From<Call> for Fields<Option<u64>> {
    ghost from_gives = { λ call fields. fields ≡ numbers_in call };

    fn from(call: Call) -> Fields<Option<u64>> {
        let blank = Fields::default();
        match call {
            Call::Begin | Call::Late | Call::Shut | Call::Notices => blank,
            Call::Enrol { customer, broker } => Fields {
                first: Some(u64::from(customer)),
                second: Some(u64::from(broker)),
                ..blank
            },
            Call::List {
                size,
                limit,
                series,
                price,
                fee,
            } => Fields {
                first: Some(size),
                second: Some(limit),
                series: Some(u64::from(series)),
                price: Some(price),
                amount: Some(fee),
                ..blank
            },
            Call::Deposit { account, amount } | Call::Withdraw { account, amount } => Fields {
                first: Some(u64::from(account)),
                amount: Some(amount),
                ..blank
            },
            Call::Trade {
                buyer,
                seller,
                series,
                count,
                price,
            } => Fields {
                first: Some(u64::from(buyer)),
                second: Some(u64::from(seller)),
                series: Some(u64::from(series)),
                count: Some(count),
                price: Some(price),
                ..blank
            },
            Call::Mark { series, price } | Call::Final { series, price } => Fields {
                series: Some(u64::from(series)),
                price: Some(price),
                ..blank
            },
            Call::Force {
                customer,
                counterparty,
                series,
                offer,
                price,
            } => Fields {
                first: Some(u64::from(customer)),
                second: Some(u64::from(counterparty)),
                series: Some(u64::from(series)),
                count: Some(offer),
                price: Some(price),
                ..blank
            },
            Call::Cover { customer } => Fields {
                first: Some(u64::from(customer)),
                ..blank
            },
        }
    }
}

impl Kind {
    /// The table of the fields: which of them a call of this kind uses.
    pub(crate) fn uses(self) -> Fields<bool>
        ensures { result ≡ uses_of self }
    {
        let none = Fields::default();
        match self {
            Kind::Begin | Kind::Late | Kind::Shut | Kind::Notices => none,
            Kind::Enrol => Fields {
                first: true,
                second: true,
                ..none
            },
            Kind::List => Fields {
                first: true,
                second: true,
                series: true,
                price: true,
                amount: true,
                ..none
            },
            Kind::Deposit | Kind::Withdraw => Fields {
                first: true,
                amount: true,
                ..none
            },
            Kind::Trade | Kind::Force => Fields {
                first: true,
                second: true,
                series: true,
                count: true,
                price: true,
                ..none
            },
            Kind::Mark | Kind::Final => Fields {
                series: true,
                price: true,
                ..none
            },
            Kind::Cover => Fields {
                first: true,
                ..none
            },
        }
    }

    /// The call of this kind with these numbers, of at most 32 bits where it takes an account or a series. A blank counts as 0.
    pub(crate) fn call(self, fields: Fields<Option<u64>>) -> Call
        requires { (unwrap_or fields.first 0 < 2 ^ 32) × ((unwrap_or fields.second 0 < 2 ^ 32) × (unwrap_or fields.series 0 < 2 ^ 32)) }
        ensures { result ≡ call_of self fields }
    {
        // A field that the kind uses was read, and the others are not looked at: to refuse nothing here would add a fault that no line has.
        let first = fields.first.unwrap_or(0);
        let second = fields.second.unwrap_or(0);
        let series = fields.series.unwrap_or(0) as u32;
        let count = fields.count.unwrap_or(0);
        let price = fields.price.unwrap_or(0);
        let amount = fields.amount.unwrap_or(0);
        match self {
            Kind::Begin => Call::Begin,
            Kind::Enrol => Call::Enrol {
                customer: first as u32,
                broker: second as u32,
            },
            Kind::List => Call::List {
                size: first,
                limit: second,
                series,
                price,
                fee: amount,
            },
            Kind::Deposit => Call::Deposit {
                account: first as u32,
                amount,
            },
            Kind::Withdraw => Call::Withdraw {
                account: first as u32,
                amount,
            },
            Kind::Trade => Call::Trade {
                buyer: first as u32,
                seller: second as u32,
                series,
                count,
                price,
            },
            Kind::Late => Call::Late,
            Kind::Shut => Call::Shut,
            Kind::Mark => Call::Mark { series, price },
            Kind::Final => Call::Final { series, price },
            Kind::Force => Call::Force {
                customer: first as u32,
                counterparty: second as u32,
                series,
                offer: count,
                price,
            },
            Kind::Cover => Call::Cover {
                customer: first as u32,
            },
            Kind::Notices => Call::Notices,
        }
    }
}
