//! What is true of every run of calls on a new room, for every book and every margin rule.
#![tactic(auto)]

ghost use Rattle.runs.specs.Law.{RunsExist};
ghost use Rattle.runs.specs.Money.{MoneyLaw};
ghost use Rattle.runs.specs.Notices.{NoticeLaw};
ghost use Rattle.runs.specs.Trading.{TradeLaw};

/// Once begin was accepted, a customer's balance is its deposits − withdrawals − fees + cover received + gains of its
/// trades and forced closes, at the prices that stand now; all balances add up to all deposits less all withdrawals.
pub fn balances_stand()
    ensures { MoneyLaw }
{}

/// Who comes under notice and who leaves it, exactly when; what stays as it is in between; and that the counts add up.
pub fn notices_stand()
    ensures { NoticeLaw }
{}

/// A position is contracts bought less sold, 0 once its series has ended; in each series longs equal shorts.
pub fn positions_stand()
    ensures { TradeLaw }
{}

/// There are runs: a new room over any book and any lawful rule begins one, and whatever call is made goes on with it.
pub fn runs_exist()
    ensures { RunsExist }
{}
