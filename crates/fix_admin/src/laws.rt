//! What holds of the bytes that `building` gives, on a function that does nothing.
ghost use Rattle.std.specs.Prelude.{◌≡◌, ℕ, List, None};
ghost use Rattle.fix_base.specs.Fields.{Field, FieldsAfter};
ghost use Rattle.fix_fields.specs.Faulty.{due_behind};
ghost use Rattle.fix_admin.specs.Follows.{MayFollow, IsWhole};

/// What may follow makes a message with any front of fields, from MsgType (35) to the end of the
/// header, of which the last announces no data: together they are a list of fields, and as long as
/// both. So a front of 512 bytes leaves the whole within the greatest BodyLength (9), 1,048,576.
pub fn what_may_follow_makes_a_message()
    ensures { (longest : ℕ) (front bytes : List ℕ) (fs : List Field) → FieldsAfter None front fs
        → due_behind None fs ≡ None → MayFollow longest bytes → IsWhole longest front bytes fs }
{}
