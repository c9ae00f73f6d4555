//! The call of this crate, for who checks a frame. It runs `reading`, `again` and `fields`, then
//! `first_misfit_of` of fix_groups, and then `required`.
ghost use Rattle.std.specs.Prelude.{◌≡◌, ◌++◌, Some, false, IfOk};
ghost use Rattle.fix_base.specs.Shape.{IsFrame};
ghost use Rattle.fix_groups.specs.Tagged.{all_tagged};
ghost use Rattle.fix_validate.specs.Rows.{Finds};
ghost use Rattle.fix_validate.specs.Groups.{group_fault, groups_rows};
ghost use Rattle.fix_groups.specs.Touched.{touched};
ghost use Rattle.fix_validate.specs.Checks.{rows, rows_by, whole, required_of_all, invalid_type, Checks};

use crate::again::index_of;
use crate::fields::fields_fault;
use crate::reading::{collect, value_of};
use crate::required::{missing, missing_tag};
use crate::seats::seats_of;
use fix_base::tags::MSG_TYPE;
use fix_base::{Fault, OutOfMemory};
use fix_dict::{Dictionary, NotedLayout};
use fix_fields::Layout;
use fix_groups::{Lent, Misfit, Whole, first_misfit_of};
use std::alloc::Global;

/// The first fault of a frame by a dictionary, or None: SessionRejectReason (373) and RefTagID (371).
/// First the MsgType (35) is looked for; then each field is asked in the order of the frame, from
/// BeginString (8) to CheckSum (10); then the groups, in the order of their counts; then the
/// required tags. `order` asks that header fields stand first and trailer fields last
/// (ValidateFieldsOutOfOrder).
pub fn check(
    alloc: Global,
    dict: &Dictionary,
    frame: &[u8],
    order: bool,
) -> Result<Option<Fault>, OutOfMemory>
    requires { IsFrame frame.now }
    ensures { IfOk result (Checks dict.now order frame.now) }
{
    let fields = collect(alloc, frame)?;
    fault_of(alloc, dict, &fields, order)
}

// The first fault of these fields.
fn fault_of(
    alloc: Global,
    dict: &Dictionary,
    fields: &[Lent<'_>],
    order: bool,
) -> Result<Option<Fault>, OutOfMemory>
    ensures { IfOk result (Finds (rows dict.now order fields.now)) }
{
    let Some(kind) = value_of(fields, MSG_TYPE) else {
        return Ok(Some(invalid_type()));
    };
    let Some(message) = dict.noted_layout(kind) else {
        return Ok(Some(invalid_type()));
    };
    fault_by(alloc, dict, message, fields, order)
}

fn invalid_type() -> Fault
    ensures { result ≡ invalid_type.fault }
{
    Fault {
        reason: 11,
        tag: None,
    }
}

// The first fault of these fields as those of a message with this layout.
fn fault_by(
    alloc: Global,
    dict: &Dictionary,
    message: &NotedLayout,
    fields: &[Lent<'_>],
    order: bool,
) -> Result<Option<Fault>, OutOfMemory>
    ensures { IfOk result (Finds (rows_by dict.now order fields.now (Some message.now))) }
{
    let root = Whole::new(dict.header(), message.layout(), dict.trailer());
    let index = index_of(alloc, fields)?;
    let seats = seats_of(fields);
    match fields_fault(dict, message, &root, order, fields, &seats, &index) {
        Err(fault) => Ok(Some(fault)),
        // Most messages have no group, and then nothing is asked of groups.
        Ok(false) => Ok(missing_tag_of(dict, message, fields, &seats)),
        Ok(true) => behind_fields(alloc, dict, message.layout(), &root, fields),
    }
}

// The first fault of the groups, and then of the required tags.
fn behind_fields(
    alloc: Global,
    dict: &Dictionary,
    message: &Layout,
    root: &Whole<'_>,
    fields: &[Lent<'_>],
) -> Result<Option<Fault>, OutOfMemory>
    requires { root.now ≡ whole dict.now message.now }
    ensures { IfOk result (Finds (groups_rows (whole dict.now message.now) (all_tagged fields.now)
        ++ required_of_all dict.now message.now (all_tagged fields.now))) }
{
    if let Some(misfit) = first_misfit_of(alloc, fields, root)? {
        return Ok(Some(group_fault(misfit)));
    }
    Ok(missing_of(dict, message, fields))
}

// The first required tag that is missing, where no field has anything to do with a group.
fn missing_tag_of(
    dict: &Dictionary,
    message: &NotedLayout,
    fields: &[Lent<'_>],
    seats: &[u8; 256],
) -> Option<Fault>
    requires { touched (whole dict.now message.now) (all_tagged fields.now) ≡ false }
    ensures { Finds (required_of_all dict.now message.now (all_tagged fields.now)) result }
{
    if let Some(fault) = missing_tag(dict.noted_header().required(), fields, seats) {
        return Some(fault);
    }
    if let Some(fault) = missing_tag(message.required(), fields, seats) {
        return Some(fault);
    }
    missing_tag(dict.noted_trailer().required(), fields, seats)
}

fn group_fault(misfit: Misfit) -> Fault
    ensures { result ≡ group_fault misfit }
{
    match misfit {
        Misfit::Count(count) => Fault {
            reason: 16,
            tag: Some(count),
        },
        Misfit::Order(count) => Fault {
            reason: 15,
            tag: Some(count),
        },
    }
}

// The first required tag that is missing, of header, message and trailer.
fn missing_of(dict: &Dictionary, message: &Layout, fields: &[Lent<'_>]) -> Option<Fault>
    ensures { Finds (required_of_all dict.now message.now (all_tagged fields.now)) result }
{
    if let Some(fault) = missing(dict.header(), fields) {
        return Some(fault);
    }
    if let Some(fault) = missing(message, fields) {
        return Some(fault);
    }
    missing(dict.trailer(), fields)
}
