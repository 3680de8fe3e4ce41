//! Laws of attributes and the options that they become.
ghost use Rattle.std.specs.Prelude.{◌≡◌, ℕ, List, true};
ghost use Rattle.ipp_values.specs.TextLimits.{is_text};
ghost use Rattle.ipp_values.specs.declared.value.Value.{Value as ValueOf};
ghost use Rattle.ipp_printers.specs.declared.property.Property.{Property as PropertyOf};
ghost use Rattle.ipp_options.specs.StatedAttributes.{IsTaken, IsTakenAgain};
ghost use Rattle.ipp_options.specs.declared.choice.Choice.{Choice as ChoiceOf};

/// An attribute that [`stated_attributes`](crate::stated_attributes) returns becomes the same option if a client asks for it again. This
/// is stated for words and single numbers.
#[tactic(auto, using(crate::proofs::TakenLaws::taken_again))]
pub fn stated_values_are_taken_again()
    ensures { (printer : List PropertyOf) (choice : ChoiceOf) (list : List ValueOf) (text : List ℕ) → is_text 1 255 127 text ≡ true → IsTaken printer choice list text → IsTakenAgain printer choice text }
{}
