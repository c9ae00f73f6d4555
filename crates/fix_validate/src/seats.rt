//! Where the tags of few fields stand, so that most are found in one step. `checking` has it made, and `again` and
//! `required` look into it.
ghost use Rattle.std.specs.Prelude.{◌≡◌, ◌%◌, ◌<◌, replicate};
ghost use Rattle.fix_validate.specs.Index.{AreSeats, seat_taken};

use fix_base::Tag;
use fix_groups::Lent;

/// So many fields are few: among them a tag is looked for one by one.
pub const FEW: usize = 48;

/// By the last byte of a tag: one more than the place of the first of the fields whose tag ends in it, or 0. Of
/// more than few fields nothing is kept.
pub fn seats_of(fields: &[Lent<'_>]) -> [u8; 256]
    ensures { AreSeats fields.now result }
{
    let mut seats = no_seats();
    if fields.len() > FEW {
        return seats;
    }
    for i in 0..fields.len() {
        let byte = last_byte(fields[i].tag());
        take_seat(&mut seats, byte, i);
    }
    seats
}

fn no_seats() -> [u8; 256]
    ensures { result ≡ replicate 256 0 }
{
    [0; 256]
}

// The first that comes is seated.
fn take_seat(seats: &mut [u8; 256], byte: usize, place: usize)
    requires byte { byte < 256 }
    requires place { place < 48 }
    ensures { seats.new ≡ seat_taken byte place seats.old }
{
    if seats[byte] == 0 {
        seats[byte] = (place + 1) as u8;
    }
}

/// The last byte of a tag's number.
pub fn last_byte(tag: Tag) -> usize
    ensures is { result ≡ tag % 256 }
    ensures within { result < 256 }
{
    (tag.get() % 256) as usize
}
