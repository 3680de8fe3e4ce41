//! Laws of the spelling.
ghost use Rattle.std.specs.Prelude.{◌≡◌, ◌+◌, List, ℕ, [], ◌++◌, length};
ghost use Rattle.spool_types.specs.declared.event.Event.{Event};
ghost use Rattle.spool_types.specs.declared.effect.Effect.{Effect};
ghost use Rattle.spool_types.specs.Effects.{effects_size};
ghost use Rattle.spool_types.specs.declared.listing.Row.{Row};
ghost use Rattle.spool_types.specs.declared.version.Version.{Version};
ghost use Rattle.event_codec.specs.Spelling.{effects_code, IsSpellable, spelling};
ghost use Rattle.event_codec.specs.RowSpelling.{IsRowSpellable, row_spelling};

/// No event's spelling is a proper prefix of another's, so bytes after a spelling are never a part of it.
pub fn no_proper_prefix()
    ensures { (d e : Event) (rest : List ℕ) → IsSpellable d → IsSpellable e → spelling d ++ rest ≡ spelling e → rest ≡ [] }
{}

/// Bytes are the spelling of at most one event.
pub fn one_event()
    ensures { (d e : Event) → IsSpellable d → IsSpellable e → spelling d ≡ spelling e → d ≡ e }
{}

/// The code of effects has two bytes for their number, followed by the number of bytes that `effects_size` states.
pub fn effects_have_their_size()
    ensures { (effects : List Effect) → length (effects_code effects) ≡ 2 + effects_size effects }
{}

/// No row's spelling is a proper prefix of another's of the same version.
pub fn no_proper_prefix_of_rows()
    ensures { (v : Version) (a b : Row) (rest : List ℕ) → IsRowSpellable v a → IsRowSpellable v b → row_spelling v a ++ rest ≡ row_spelling v b → rest ≡ [] }
{}

/// Bytes are the spelling of at most one row in each version.
pub fn one_row()
    ensures { (v : Version) (a b : Row) → IsRowSpellable v a → IsRowSpellable v b → row_spelling v a ≡ row_spelling v b → a ≡ b }
{}

/// The spelling of a row of any version and that of an event are different, and neither is a prefix of the other.
pub fn rows_are_no_events()
    ensures { (v : Version) (row : Row) (e : Event) (some more : List ℕ) → ¬ (row_spelling v row ++ some ≡ spelling e ++ more) }
{}
