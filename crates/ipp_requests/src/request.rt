//! The request of a message.
ghost use Rattle.std.specs.Prelude.{◌≡◌, ◌≢◌, Ok, Err, IfErr, IfOk};
ghost use Rattle.ipp_names.specs.declared.statuses.Status.TheVariants.{TemporaryError};

use crate::actions::Action;
use crate::attributes::text_at;
use crate::borrowed::MessageText;
use crate::checks::{attributes_of, check};
use crate::reading::action_of;
use crate::syntax::Syntax;
use ipp_names::{Operation, Status};
use ipp_values::{Attribute, Message};
use std::alloc::Global;

/// A request that passed all checks of its message.
#[derive(Drop)]
pub struct Request<'m> {
    /// `requesting-user-name`. The client may say any name.
    pub user: Option<MessageText<'m>>,
    pub action: Action<'m>,
}

impl<'m> Request<'m> {
    ghost use Rattle.ipp_requests.specs.IppRequests.{request_by, request_of};

    /// Returns the request of a message, or the status of its first fault. The status is `TemporaryError` if memory runs out.
    pub fn of(alloc: Global, message: &'m Message) -> Result<Request<'m>, Status>
        ensures ok { IfOk result (λ request. request_of message.now ≡ Ok request) }
        ensures refused { IfErr result (λ status. status ≢ TemporaryError → request_of message.now ≡ Err status) }
    {
        check(alloc, message)?;
        match Operation::from_number(message.code) {
            Some(operation) => Request::by(operation, attributes_of(message), message),
            None => Err(Status::OperationNotSupported),
        }
    }

    fn by(
        operation: Operation,
        attributes: &'m [Attribute],
        message: &'m Message,
    ) -> Result<Request<'m>, Status>
        ensures { result ≡ request_by operation attributes.now message.now }
    {
        let user = text_at(Syntax::Name, "requesting-user-name", attributes)?;
        let action = action_of(operation, attributes, message)?;
        Ok(Request { user, action })
    }
}
