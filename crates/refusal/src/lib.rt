// The refusals: what may be wrong with bytes that are lent, with a call or with an area, each of one number.
#![tactic(auto)]

ghost use Rattle.std.specs.Prelude.{◌≡◌};
ghost use Rattle.refusal.specs.Believed.Numbers.{number};

// Those of document 01, with 52 of document 02 and, ahead of request 8, 54.
#[derive(Clone, Copy)]
pub enum Refusal {
    // A rota, its hours records, its roles and its rows.
    RotaShort = 1,
    RotaFormat = 2,
    RotaCycle = 3,
    RotaCounts = 4,
    HoursCut = 5,
    HoursSpan = 6,
    HoursPairs = 7,
    HoursPair = 8,
    RotaLength = 9,
    RoleHours = 10,
    UserRow = 11,
    PermissionRow = 12,
    // The area.
    AreaTooSmall = 20,
    // A table, its entries and its rows.
    TableShort = 21,
    TableFormat = 22,
    TableCycle = 23,
    TableCounts = 24,
    TableLength = 25,
    TableEntry = 26,
    TableRow = 27,
    TableOrder = 28,
    // A question's numbers.
    NoSuchMinute = 33,
    NoSuchUser = 34,
    NoSuchPermission = 35,
    // The service's state, and a call.
    StateUnfit = 40,
    BeforeNow = 41,
    AlreadyOpen = 42,
    NoPermissionNow = 43,
    NotOpen = 44,
    // A date, and a page of questions.
    NoSuchDate = 50,
    PageTooLong = 51,
    // Rows of format 3, and pairs of roles.
    RowOrder = 52,
    RolePair = 54,
}

impl From<Refusal> for u32 {
    ghost from_gives = { λ r n. n ≡ number r };

    fn from(r: Refusal) -> u32 {
        r as u32
    }
}
