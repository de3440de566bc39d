// The table that the calendar rests on. Its proof holds each number to the rule.
ghost use Rattle.std.specs.Prelude.{◌≡◌, ◌<◌};
ghost use Rattle.calendar.specs.Believed.Calendar.{month_start};

// The days of a year of 365 days, as 2001 is, before month 1 + j, and before its end where j is 12. The numbers of a `match` the compiler keeps in memory
// that is only read; an array it would lay on the stack at each use. No j comes to the last arm.
pub fn common_start(j: u32) -> u32
    requires { j < 13 }
    ensures { result ≡ month_start 2001 j }
{
    match j {
        0 => 0,
        1 => 31,
        2 => 59,
        3 => 90,
        4 => 120,
        5 => 151,
        6 => 181,
        7 => 212,
        8 => 243,
        9 => 273,
        10 => 304,
        11 => 334,
        12 => 365,
        _ => 366,
    }
}
