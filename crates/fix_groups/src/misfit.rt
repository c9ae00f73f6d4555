//! What is wrong with groups: as `misfits` finds it, and as `split` answers it.
use fix_base::Tag;

/// What is wrong with the groups of a list of fields. Both name the tag of the group's count.
#[derive(Clone, Copy, Debug, PartialEq, Eq)]
pub enum Misfit {
    /// The number of instances isn't the count (SessionRejectReason 373=16).
    Count(Tag),
    /// A run doesn't begin with the delimiter, an instance isn't in the order of the members, or a
    /// member stands outside every run of its group (SessionRejectReason 373=15).
    Order(Tag),
}

/// Why fields weren't split by their groups.
#[derive(Clone, Copy, Debug, PartialEq, Eq)]
pub enum GroupFault {
    /// The number of instances isn't the count, whose tag it is.
    CountWrong(Tag),
    /// The instances of the group with this count are out of order.
    OrderWrong(Tag),
    /// Out of memory.
    OutOfMemory,
}
