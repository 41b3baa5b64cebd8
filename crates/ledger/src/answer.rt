//! What a request is answered.

use http::StatusCode;

/// What a request is answered: a status, and a text that says whether its transfer was made.
#[derive(Clone, Copy, Debug, Drop, PartialEq, Eq)]
pub enum Answer {
    /// 200, `made`: the transfer was made, and no crash takes it back.
    Durable,
    /// 503, `made`: the transfer was made, and the helper has stopped before it was acknowledged. A crash may take it back.
    NotDurable,
    /// 400, `not made`: the request asks for no transfer, for one of nothing, or for one from an account to itself.
    NoTransfer,
    /// 404, `not made`: one of the accounts isn't there.
    NoAccount,
    /// 409, `not made`: the account has less than the amount.
    TooLittle,
    /// 409, `not made`: the other account's balance would pass 64 bits.
    TooMuch,
    /// 503, `not made`: the thread can't go on.
    Stopped,
}

impl Answer {
    ghost use Rattle.std.specs.Prelude.{◌≡◌};
    ghost use Rattle.ledger.specs.Answers.{status_of, text_of};

    /// Its status.
    pub fn status(self) -> StatusCode
        ensures { result ≡ status_of self }
    {
        match self {
            Answer::Durable => StatusCode::OK,
            Answer::NoTransfer => StatusCode::BAD_REQUEST,
            Answer::NoAccount => StatusCode::NOT_FOUND,
            Answer::TooLittle | Answer::TooMuch => StatusCode::CONFLICT,
            Answer::NotDurable | Answer::Stopped => StatusCode::SERVICE_UNAVAILABLE,
        }
    }

    /// Its text: whether the transfer was made.
    pub fn text(self) -> &'static str
        ensures { result.now ≡ text_of self }
    {
        match self {
            Answer::Durable | Answer::NotDurable => "made",
            _ => "not made",
        }
    }
}
