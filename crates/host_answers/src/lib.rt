// What the C interface tells, in plain numbers: each answer begins with a refusal's number, or 0, and values that an answer does not have are 0. Each is
// made from the result of what was called.
#![tactic(auto)]

ghost use Rattle.std.specs.Prelude.{◌≡◌, Option};
ghost use Rattle.machine.specs.Believed.Machine.{closed, done};
ghost use Rattle.machine.specs.Answers.{gives};
ghost use Rattle.refusal.specs.Believed.Ends.{outcome_of};
ghost use Rattle.host_answers.specs.Believed.Told.{told_by, question_told, next_told, rota_told, table_told, tidied_told, written_told, date_told, minute_told};
ghost use Rattle.rewrite_area.specs.Answers.{written_given};

use calendar::Date;
use machine::Service;
use refusal::Refusal;
use rewrite_area::Rewritten;

// What reading a rota tells: the counts of its header.
#[repr(C)]
#[derive(Clone, Copy, Default)]
pub struct RotaTold {
    pub refusal: u32,
    pub cycle: u32,
    pub hours: u32,
    pub users: u32,
    pub permissions: u32,
    pub roles: u32,
    pub user_rows: u32,
    pub permission_rows: u32,
    pub format: u32,
}

impl From<Result<rota::Counts, Refusal>> for RotaTold {
    ghost from_gives = { λ r told. told ≡ rota_told (outcome_of r) };

    fn from(r: Result<rota::Counts, Refusal>) -> RotaTold {
        match r {
            Ok(n) => RotaTold {
                refusal: 0,
                cycle: n.cycle,
                hours: n.hours,
                users: n.users,
                permissions: n.permissions,
                roles: n.roles,
                user_rows: n.user_rows,
                permission_rows: n.permission_rows,
                format: n.format,
            },
            Err(refusal) => RotaTold {
                refusal: refusal.into(),
                ..RotaTold::default()
            },
        }
    }
}

// What reading a table tells: the counts of its header.
#[repr(C)]
#[derive(Clone, Copy, Default)]
pub struct TableTold {
    pub refusal: u32,
    pub cycle: u32,
    pub users: u32,
    pub permissions: u32,
    pub roles: u32,
    pub derived: u32,
    pub rows: u32,
}

impl From<Result<table::Counts, Refusal>> for TableTold {
    ghost from_gives = { λ r told. told ≡ table_told (outcome_of r) };

    fn from(r: Result<table::Counts, Refusal>) -> TableTold {
        match r {
            Ok(n) => TableTold {
                refusal: 0,
                cycle: n.cycle,
                users: n.users,
                permissions: n.permissions,
                roles: n.roles,
                derived: n.derived,
                rows: n.rows,
            },
            Err(refusal) => TableTold {
                refusal: refusal.into(),
                ..TableTold::default()
            },
        }
    }
}

// What tidying tells: the tidy rota's length.
#[repr(C)]
#[derive(Clone, Copy)]
pub struct TidiedTold {
    pub refusal: u32,
    pub length: u64,
}

impl From<Result<usize, Refusal>> for TidiedTold {
    ghost from_gives = { λ r told. told ≡ tidied_told (outcome_of r) };

    fn from(r: Result<usize, Refusal>) -> TidiedTold {
        match r {
            Ok(length) => TidiedTold {
                refusal: 0,
                length: length as u64,
            },
            Err(refusal) => TidiedTold {
                refusal: refusal.into(),
                length: 0,
            },
        }
    }
}

// What rewriting tells: the table's derived roles, rows and length.
#[repr(C)]
#[derive(Clone, Copy, Default)]
pub struct WrittenTold {
    pub refusal: u32,
    pub derived: u32,
    pub rows: u32,
    pub length: u64,
}

impl From<Result<Rewritten, Refusal>> for WrittenTold {
    ghost from_gives = { λ r told. told ≡ written_told (written_given r) };

    fn from(r: Result<Rewritten, Refusal>) -> WrittenTold {
        match r {
            Ok(table) => WrittenTold {
                refusal: 0,
                derived: table.derived,
                rows: table.rows,
                length: table.length as u64,
            },
            Err(refusal) => WrittenTold {
                refusal: refusal.into(),
                ..WrittenTold::default()
            },
        }
    }
}

#[repr(C)]
#[derive(Clone, Copy, Default)]
pub struct DateTold {
    pub refusal: u32,
    pub year: u32,
    pub month: u32,
    pub day: u32,
    pub weekday: u32,
    pub hour: u32,
    pub minute: u32,
}

impl From<Result<Date, Refusal>> for DateTold {
    ghost from_gives = { λ r told. told ≡ date_told (outcome_of r) };

    fn from(r: Result<Date, Refusal>) -> DateTold {
        match r {
            Ok(date) => DateTold {
                refusal: 0,
                year: date.year,
                month: date.month,
                day: date.day,
                weekday: date.weekday,
                hour: date.hour,
                minute: date.minute,
            },
            Err(refusal) => DateTold {
                refusal: refusal.into(),
                ..DateTold::default()
            },
        }
    }
}

#[repr(C)]
#[derive(Clone, Copy)]
pub struct MinuteTold {
    pub refusal: u32,
    pub minute: u32,
}

impl From<Result<u32, Refusal>> for MinuteTold {
    ghost from_gives = { λ r told. told ≡ minute_told (outcome_of r) };

    fn from(r: Result<u32, Refusal>) -> MinuteTold {
        match r {
            Ok(minute) => MinuteTold { refusal: 0, minute },
            Err(refusal) => MinuteTold {
                refusal: refusal.into(),
                minute: 0,
            },
        }
    }
}

// What is told of the next use of a permission: 1 and its minute, or 0 and 0 for none before the end of 2400.
#[repr(C)]
#[derive(Clone, Copy, Default)]
pub struct NextTold {
    pub refusal: u32,
    pub found: u32,
    pub minute: u32,
}

impl From<Result<Option<u32>, Refusal>> for NextTold {
    ghost from_gives = { λ r told. told ≡ next_told (outcome_of r) };

    fn from(r: Result<Option<u32>, Refusal>) -> NextTold {
        match r {
            Ok(Some(minute)) => NextTold {
                refusal: 0,
                found: 1,
                minute,
            },
            Ok(None) => NextTold::default(),
            Err(refusal) => NextTold {
                refusal: refusal.into(),
                ..NextTold::default()
            },
        }
    }
}

// What a question or a call tells: a refusal's number, else 0; 1 for yes, else 0; the role of a yes, the count of an advance, else 0.
#[repr(C)]
#[derive(Clone, Copy, Default)]
pub struct Told {
    pub refusal: u32,
    pub yes: u32,
    pub value: u32,
}

// A question, and an ask.
impl From<Result<Option<u8>, Refusal>> for Told {
    ghost from_gives = { λ r told. told ≡ question_told (outcome_of r) };

    fn from(r: Result<Option<u8>, Refusal>) -> Told {
        match r {
            Ok(Some(role)) => Told {
                refusal: 0,
                yes: 1,
                value: role.into(),
            },
            Ok(None) => Told::default(),
            Err(refusal) => Told {
                refusal: refusal.into(),
                ..Told::default()
            },
        }
    }
}

// An advance.
impl From<Result<u32, Refusal>> for Told {
    ghost from_gives = { λ r told. told ≡ told_by (gives closed r) };

    fn from(r: Result<u32, Refusal>) -> Told {
        match r {
            Ok(value) => Told {
                value,
                ..Told::default()
            },
            Err(refusal) => Told {
                refusal: refusal.into(),
                ..Told::default()
            },
        }
    }
}

// To open and to close a session.
impl From<Result<(), Refusal>> for Told {
    ghost from_gives = { λ r told. told ≡ told_by (gives (λ _. done) r) };

    fn from(r: Result<(), Refusal>) -> Told {
        match r {
            Ok(()) => Told::default(),
            Err(refusal) => Told {
                refusal: refusal.into(),
                ..Told::default()
            },
        }
    }
}

// The state that a call leaves, and what it tells: the words in which the contracts of the lent calls say both at once.
#[derive(Clone, Copy)]
pub struct Stepped {
    pub service: Service,
    pub told: Told,
}
