//! Laws on the inputs of stages and on tickets. The functions do nothing: their clauses are the laws.
ghost use Rattle.std.specs.Prelude.{◌≡◌, ℕ, ◌+◌, Bool, cond, List, [], Option, Some};
ghost use Rattle.std.specs.FinMap as finite;
ghost use Rattle.child_pipeline.specs.StageSlots.{Slots, IsTicketless, IsStart, Waits, put_progress, progress_after, begun, advanced, finish_in, input_in};
ghost use Rattle.child_pipeline.specs.ChildTraces.{ChildTrace, Looks};
ghost use Rattle.child_pipeline.specs.Tickets.{HasTickets, IsRunningAs, AreKeptBy};
ghost use Rattle.child_pipeline.specs.declared.order.Order.{Order as OrderOf};
ghost use Rattle.child_pipeline.specs.declared.order.Input.TheVariants as inputs;
ghost use Rattle.child_pipeline.specs.declared.runner.Slot.{Slot as SlotOf};

/// The input of an attempt's first stage is the document. The input of each later stage is the output of the previous one in the same
/// attempt.
pub fn right_input()
    ensures first { (attempt : ℕ) (document : List ℕ) → input_in (begun attempt 1).progress document ≡ inputs.Document document }
    ensures later { (slot : SlotOf ℕ) (document : List ℕ) → input_in (advanced slot).progress document ≡ inputs.Bytes (finish_in slot.progress).output }
    ensures next { (slot : SlotOf ℕ) → (advanced slot).stage ≡ slot.stage + 1 }
    ensures attempt { (slot : SlotOf ℕ) → (advanced slot).attempt ≡ slot.attempt }
{}

/// No ticket is lost, and none is used twice: a start puts the new child's ticket into the job's slot, a finish takes it out, a check
/// leaves it there, and a slot without a ticket may be freed or replaced by another one without a ticket.
pub fn tickets_stay()
    ensures starts { (slots : Slots) (j : ℕ) (t : ChildTrace) (order : OrderOf) (b : Bool) (n : ℕ) (told : Option ChildTrace) →
        HasTickets slots t → IsTicketless (finite.get slots j) → IsStart (Some t) order b n told → AreKeptBy t (cond b 1 0) (put_progress slots j (progress_after b n)) told }
    ensures finishes { (slots : Slots) (j n : ℕ) (t : ChildTrace) (new : Slots) (told : Option ChildTrace) →
        HasTickets slots t → IsRunningAs slots j n → Waits (Some t) n slots j new told → AreKeptBy t 0 new told }
    ensures looks { (slots : Slots) (t : ChildTrace) (ended : Bool) (told : Option ChildTrace) → HasTickets slots t → Looks (Some t) ended told → AreKeptBy t 0 slots told }
    ensures releases { (slots : Slots) (j : ℕ) (t : ChildTrace) → HasTickets slots t → IsTicketless (finite.get slots j) → HasTickets (finite.remove slots j) t }
    ensures replaces { (slots : Slots) (j : ℕ) (slot : SlotOf ℕ) (t : ChildTrace) → HasTickets slots t → IsTicketless (finite.get slots j) → IsTicketless (Some slot) → HasTickets (finite.insert slots j slot) t }
{}
