// Where a slot is.
ghost use Rattle.std.specs.Prelude.{◌≡◌};
ghost use Rattle.slots.specs.Places.{place};

// A site, and one of its slots.
#[derive(Clone, Copy, PartialEq, Eq, Debug)]
pub struct Place {
    pub site: usize,
    pub slot: usize,
}

impl Place {
    // The place of these numbers.
    pub fn new(site: u32, slot: u32) -> Place
        ensures { result ≡ place site slot }
    {
        // casts: there is no `From` between the two widths
        Place {
            site: site as usize,
            slot: slot as usize,
        }
    }
}
