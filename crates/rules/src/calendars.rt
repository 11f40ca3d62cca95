// The calendar: the one frame on the cable, and who has still to hear it.
ghost use Rattle.std.specs.Prelude.{◌≡◌};
ghost use Rattle.rules.specs.Calendar.{waiting, empty_calendar};

use crate::Calendar;

impl Calendar {
    pub const COLDSTART_FRAME: u8 = 1;

    pub const I_FRAME: u8 = 2;

    pub fn empty() -> Calendar
        ensures { result ≡ empty_calendar }
    {
        Calendar {
            hearers: 0,
            kind: 0,
            origin: 0,
            sent: 0,
            delivery: 0,
        }
    }

    // The number of waiting hearers.
    pub fn waiting(self) -> u32
        ensures { result ≡ waiting self }
    {
        hearers::count(self.hearers)
    }
}
