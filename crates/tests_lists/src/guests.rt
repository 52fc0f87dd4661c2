//! An item with fields, and what gives them.
ghost use Rattle.std.specs.Prelude.{◌≡◌, option_copied};

use predicates::part::Field;

// A guest with a name, an age and a seat, if there is one.
#[derive(Drop)]
pub(crate) struct Guest {
    pub(crate) name: String,
    pub(crate) age: u32,
    pub(crate) seat: Option<u32>,
}

pub(crate) fn name_of(guest: &Guest) -> &String
    ensures { result.now ≡ guest.now.name }
{
    &guest.name
}

pub(crate) fn seat_of(guest: &Guest) -> Option<&u32>
    ensures { option_copied result ≡ guest.now.seat }
{
    guest.seat.as_ref()
}

#[derive(Drop)]
pub(crate) struct Age;

impl Field<Guest, u32> for Age {
    ghost part_of = { λ field guest. guest.age };

    fn get<'a>(&self, guest: &'a Guest) -> &'a u32 {
        &guest.age
    }
}
