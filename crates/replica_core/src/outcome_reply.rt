//! Replies made of answers.
ghost use Rattle.std.specs.Prelude.{◌≡◌};
ghost use Rattle.replica_core.specs.Outcomes.{reply_of_applied, reply_of_delivered};
ghost use Rattle.replica_core.specs.Outcomes.{reply_of_forgotten};

use crate::outcome::{Applied, Delivered};
use doc_api::Reply;
use json_scalar::Refusal;

/// The reply to a change of one's own.
pub fn applied_reply(answer: Result<Applied, Refusal>) -> Reply
    ensures { result ≡ reply_of_applied answer }
{
    match answer {
        Ok(Applied { count, dropped, id }) => Reply::Applied { count, dropped, id },
        Err(cause) => Reply::Refused(cause),
    }
}

/// The reply to the delivery of an operation.
pub fn delivered_reply(answer: Result<Delivered, Refusal>) -> Reply
    ensures { result ≡ reply_of_delivered answer }
{
    match answer {
        Ok(Delivered::Applied(Applied { count, dropped, id })) => {
            Reply::Applied { count, dropped, id }
        }
        Ok(Delivered::Known) => Reply::Known,
        Ok(Delivered::Held(missing)) => Reply::Held(missing),
        Err(cause) => Reply::Refused(cause),
    }
}

/// The reply to the dropping of a held operation.
pub fn forgotten_reply(answer: Result<(), Refusal>) -> Reply
    ensures { result ≡ reply_of_forgotten answer }
{
    match answer {
        Ok(()) => Reply::Forgotten,
        Err(cause) => Reply::Refused(cause),
    }
}
