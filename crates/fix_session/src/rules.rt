//! By which rules the messages of a session are judged. `judging` asks them.
use fix_dict::Dictionary;

/// By which rules the messages of a session are judged.
#[derive(Clone, Copy)]
pub struct Rules<'a> {
    /// The dictionary, where there is one and invalid messages are rejected by it (RejectInvalidMessage).
    pub dict: Option<&'a Dictionary>,
    /// Header fields stand first and trailer fields last (ValidateFieldsOutOfOrder).
    pub order: bool,
}
