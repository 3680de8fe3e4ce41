//! Children that never start.
ghost use Rattle.std.specs.Prelude.{◌≡◌, true, None, IsErr};
ghost use Rattle.child_pipeline.specs.ChildTraces.{Starts, Looks};
ghost use Rattle.child_pipeline.specs.declared.none.NoTicket.{NoTicket as NoTicketValue};

use crate::children::Children;
use crate::order::{ChildFault, Finish, Order};

/// Children that never start and report nothing.
#[derive(Clone, Copy)]
pub struct NoChildren;

/// The ticket of a child of [`NoChildren`]: none is ever made.
#[derive(Drop)]
pub struct NoTicket;

impl Children for NoChildren {
    type Ticket = NoTicket;

    ghost tells = { λ _. None };

    ghost number = { λ _. 0 };

    ghost groups = { λ _. 0 };

    ghost rooms = { λ _ start_room _. start_room ≡ None };

    fn start(&mut self, order: Order) -> Result<NoTicket, ChildFault>
        ensures told { Starts (λ (_ : NoTicketValue). 0) None order result None }
        ensures fault { IsErr result }
    {
        drop(order);
        Err(ChildFault)
    }

    fn finish(&mut self, _ticket: NoTicket) -> Result<Finish, ChildFault> {
        Err(ChildFault)
    }

    fn has_ended(&mut self, _ticket: &mut NoTicket) -> bool
        ensures looks { Looks None result None }
        ensures ended { result ≡ true }
    {
        true
    }

    fn group(_ticket: &NoTicket) -> u32 {
        0
    }

    // A start fails without using any resource.
    fn start_room(&mut self) -> Option<usize>
        ensures none { result ≡ None }
    {
        None
    }
}
