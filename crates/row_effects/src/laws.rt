//! Laws of every fold of effects. The functions do nothing: the clauses of their contracts are the laws.
ghost use Rattle.std.specs.Prelude.{◌≡◌, ◌≢◌, ℕ, ◌+◌, ◌-◌, ◌≤◌, ◌<◌, ◌||◌, ◌&&◌, not, true, false, min, IsTrue, List, [], ◌∷◌, ◌++◌, length, take, sum_by, Some};
ghost use Rattle.std.specs.List.{list_all};
ghost use Rattle.spool_types.specs.declared.effect.Attribute.{Attribute};
ghost use Rattle.spool_types.specs.declared.effect.Effect.{Effect};
ghost use Rattle.spool_types.specs.declared.effect.Effect.TheVariants.{TotalPages, Message};
ghost use Rattle.spool_types.specs.declared.effect.Level.{Level};
ghost use Rattle.spool_types.specs.declared.rows.QueueRow.{QueueRow};
ghost use Rattle.row_effects.specs.Keys.{most_kept, has_key, is_ascending};
ghost use Rattle.row_effects.specs.QueueReasons.{word_of, has_word, add_reasons, set_reasons, drop_reasons, new_words};
ghost use Rattle.row_effects.specs.QueueAttributes.{name_of, set_attribute, value_at};
ghost use Rattle.row_effects.specs.EffectFold.{greatest_pages, is_pages, copies_of, pages_after, queue_after, IsInOrder};

/// The reasons and attributes of a queue stay in ascending order, without duplicates, and at most 64 of each.
pub fn queues_stay_in_order()
    ensures begins { (q : QueueRow) → q.reasons ≡ [] → q.attributes ≡ [] → IsInOrder q }
    ensures stays { (effects : List Effect) (q : QueueRow) → IsInOrder q → IsInOrder (queue_after effects q) }
{}

/// The reasons of a queue after words are added, set or dropped.
pub fn reasons_are_kept()
    // The old reasons and, up to 64 in total, the first of the new words.
    ensures added { (words reasons : List (List ℕ)) (word : List ℕ) → IsTrue (is_ascending word_of reasons) →
        has_word word (add_reasons words reasons) ≡ (has_word word reasons || has_word word (take (most_kept - length reasons) (new_words reasons words))) }

    // The first 64 distinct words.
    ensures set { (words : List (List ℕ)) (word : List ℕ) → has_word word (set_reasons words) ≡ has_word word (take most_kept (new_words [] words)) }

    // The old reasons without the words.
    ensures dropped { (words reasons : List (List ℕ)) (word : List ℕ) → has_word word (drop_reasons words reasons) ≡ (has_word word reasons && not (has_word word words)) }
{}

/// The value of a name after an attribute is set.
pub fn attributes_are_set()
    // The new value replaces an old one, even if the queue has 64 attributes.
    ensures replaced { (attributes : List Attribute) (a : Attribute) → has_key name_of a.name attributes ≡ true → value_at a.name (set_attribute attributes a) ≡ Some a.value }
    ensures added { (attributes : List Attribute) (a : Attribute) → length attributes < most_kept → value_at a.name (set_attribute attributes a) ≡ Some a.value }

    // If the queue has 64 attributes, a new name is dropped.
    ensures full { (attributes : List Attribute) (a : Attribute) → has_key name_of a.name attributes ≡ false → most_kept ≤ length attributes → set_attribute attributes a ≡ attributes }
    ensures others { (attributes : List Attribute) (a : Attribute) (name : List ℕ) → name ≢ a.name → value_at name (set_attribute attributes a) ≡ value_at name attributes }
{}

/// The pages of a job after effects.
pub fn pages_add_up()
    // Effects before a total do not count.
    ensures total { (before behind : List Effect) (total pages : ℕ) → pages_after (before ++ TotalPages total ∷ behind) pages ≡ pages_after behind total }

    // Without a total the copies are added up, to at most 4,294,967,295.
    ensures sum { (effects : List Effect) (pages : ℕ) → list_all is_pages effects ≡ true → pages ≤ greatest_pages → pages_after effects pages ≡ min (pages + sum_by copies_of effects) greatest_pages }
{}

/// Effects are applied in order.
pub fn effects_come_in_turn()
    ensures queue { (first rest : List Effect) (q : QueueRow) → queue_after (first ++ rest) q ≡ queue_after rest (queue_after first q) }
    ensures pages { (first rest : List Effect) (pages : ℕ) → pages_after (first ++ rest) pages ≡ pages_after rest (pages_after first pages) }

    // The last message is stored.
    ensures message { (before : List Effect) (level : Level) (text : List ℕ) (q : QueueRow) → (queue_after (before ++ Message level text ∷ []) q).message ≡ text }

    // Nothing else of a queue changes.
    ensures others { (effects : List Effect) (q : QueueRow) → queue_after effects q ≡ record q { reasons = (queue_after effects q).reasons; attributes = (queue_after effects q).attributes; message = (queue_after effects q).message } }
{}
