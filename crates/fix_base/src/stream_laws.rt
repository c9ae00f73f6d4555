//! What holds of every stream and of its frames, each law on a function that does nothing.
ghost use Rattle.std.specs.Prelude.{◌≡◌, ℕ, Bool, true, List, ◌++◌, None};
ghost use Rattle.fix_base.specs.Lists.{Among, IsPrefixOf};
ghost use Rattle.fix_base.specs.Fields.{Field, FieldsAfter};
ghost use Rattle.fix_base.specs.Shape.{IsFrame};
ghost use Rattle.fix_base.specs.Stream.{UnreadBytes, Item, TakesAll, Reads, frames};
ghost use Rattle.fix_base.specs.Says.{joined};

/// A stream has at most one reading: where frames lie, and what is skipped as garbled, never
/// depends on who reads.
pub fn a_stream_has_one_reading()
    ensures { (from : UnreadBytes) (xs ys : List Item) (b c : UnreadBytes) → Reads from xs b → Reads from ys c
        → (xs ≡ ys) × (b ≡ c) }
{}

/// What was read of the bytes that have come stands at the front of every reading of the stream
/// with more bytes after it: nothing that comes later takes a frame back.
pub fn a_longer_stream_reads_on()
    ensures { (may_mark : Bool) (bytes more : List ℕ) (xs ys : List Item) (b c : UnreadBytes) →
        TakesAll (record { may_mark = may_mark; bytes = bytes }) xs b →
        Reads (record { may_mark = may_mark; bytes = bytes ++ more }) ys c → IsPrefixOf xs ys }
{}

/// A text is one list of fields.
pub fn a_text_has_one_list_of_fields()
    ensures { (text : List ℕ) (fs gs : List Field) → FieldsAfter None text fs → FieldsAfter None text gs → fs ≡ gs }
{}

/// Who reads a front of frames that were written one after the other reads a front of these
/// frames, in order, and no other frame.
pub fn frames_of_a_front()
    ensures { (written : List (List ℕ)) (bytes : List ℕ) (items : List Item) (rest : UnreadBytes) →
        ((text : List ℕ) → Among text written → IsFrame text) → IsPrefixOf bytes (joined written) →
        TakesAll (record { may_mark = true; bytes = bytes }) items rest → IsPrefixOf (frames items) written }
{}
