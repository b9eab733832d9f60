//! What is true of every line of the answers to a sheet.
ghost use Rattle.day_sheet.specs.Fits.{AnswersFit, UnreadFit, RefusedFits};

/// Every answer to a line of the sheet fits the columns of its printed line.
#[tactic(auto, using(crate::proofs::Columns::answers_fit, crate::proofs::Columns::unread_fit))]
pub fn answers_fit()
    ensures calls { AnswersFit }
    ensures lines { UnreadFit }
    ensures sheet { RefusedFits }
{}
