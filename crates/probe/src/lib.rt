// Exports for the tests alone, beside those of the C interface: leaves and by-value forms of the proved crates, as numbers, byte slices and
// plain structs.
#![tactic(auto)]

use host_answers::Told;
use machine::Service;
use refusal::Refusal;
use source::Kind;

// A number that was found, or nothing.
#[repr(C)]
#[derive(Clone, Copy)]
pub struct Found {
    pub found: u32,
    pub value: u64,
}

impl From<Option<u64>> for Found {
    fn from(number: Option<u64>) -> Found {
        match number {
            Some(value) => Found { found: 1, value },
            None => Found { found: 0, value: 0 },
        }
    }
}

// The number of 2, 4 or 8 bytes at `at`.
fn get(s: &[u8], at: usize, width: u32) -> Option<u64> {
    let left = s.len().checked_sub(at)?;
    match width {
        2 if 2 <= left => Some(endian::read16(s, at).into()),
        4 if 4 <= left => Some(endian::read32(s, at).into()),
        8 if 8 <= left => Some(endian::read64(s, at)),
        _ => None,
    }
}

#[unsafe(no_mangle)]
pub extern "C" fn probe_get(s: &[u8], at: usize, width: u32) -> Found {
    get(s, at, width).into()
}

// Writes a number of 2, 4 or 8 bytes at `at`, where it fits.
fn put(d: &mut [u8], at: usize, width: u32, value: u64) -> Option<()> {
    let left = d.len().checked_sub(at)?;
    match width {
        2 if 2 <= left => endian::write16(d, at, u16::try_from(value).ok()?),
        4 if 4 <= left => endian::write32(d, at, u32::try_from(value).ok()?),
        8 if 8 <= left => endian::write64(d, at, value),
        _ => return None,
    }
    Some(())
}

// 1 where it is written, 0 where it does not fit.
#[unsafe(no_mangle)]
pub extern "C" fn probe_put(d: &mut [u8], at: usize, width: u32, value: u64) -> u32 {
    put(d, at, width, value).is_some().into()
}

#[unsafe(no_mangle)]
pub extern "C" fn probe_set_has(set: u64, i: u32) -> u32 {
    if 64 <= i {
        return 0;
    }
    bitset::contains(set, i).into()
}

#[unsafe(no_mangle)]
pub extern "C" fn probe_set_with(set: u64, i: u32) -> u64 {
    if 64 <= i {
        return set;
    }
    bitset::with(set, i)
}

#[unsafe(no_mangle)]
pub extern "C" fn probe_set_without(set: u64, i: u32) -> u64 {
    if 64 <= i {
        return set;
    }
    bitset::without(set, i)
}

#[unsafe(no_mangle)]
pub extern "C" fn probe_set_union(a: u64, b: u64) -> u64 {
    bitset::either(a, b)
}

#[unsafe(no_mangle)]
pub extern "C" fn probe_set_difference(a: u64, b: u64) -> u64 {
    bitset::lost(a, b)
}

#[unsafe(no_mangle)]
pub extern "C" fn probe_set_is_empty(a: u64) -> u32 {
    bitset::is_empty(a).into()
}

#[unsafe(no_mangle)]
pub extern "C" fn probe_set_count(a: u64) -> u32 {
    bitset::size(a)
}

#[unsafe(no_mangle)]
pub extern "C" fn probe_set_count_lost(before: u64, after: u64) -> u32 {
    bitset::count_lost(before, after)
}

#[repr(C)]
#[derive(Clone, Copy)]
pub struct HoursJudged {
    pub refusal: u32,
    pub pairs: u32,
}

#[unsafe(no_mangle)]
pub extern "C" fn probe_hours_judge(s: &[u8], at: usize, cycle: u32, total: u32) -> HoursJudged {
    match hours::judge(s, cycle, at, total) {
        Ok(pairs) => HoursJudged { refusal: 0, pairs },
        Err(refusal) => HoursJudged {
            refusal: refusal.into(),
            pairs: 0,
        },
    }
}

#[repr(C)]
#[derive(Clone, Copy)]
pub struct Held {
    pub refusal: u32,
    pub holds: u32,
}

// Whether the record at 0 holds at minute t, where it is not refused.
#[unsafe(no_mangle)]
pub extern "C" fn probe_hours_hold(s: &[u8], cycle: u32, t: u32) -> Held {
    match hours::judge(s, cycle, 0, 0) {
        Ok(_) => Held {
            refusal: 0,
            holds: hours::record_holds(s, cycle, 0, t).into(),
        },
        Err(refusal) => Held {
            refusal: refusal.into(),
            holds: 0,
        },
    }
}

#[repr(C)]
#[derive(Clone, Copy)]
pub struct HolderSet {
    pub refusal: u32,
    pub users: u64,
}

// Who holds any permission at minute t of lent bytes: their refusal, 33, or the set.
fn holders_at(kind: Kind, s: &[u8], t: u32) -> Result<u64, Refusal> {
    let source = source::lend(kind, s)?;
    if minutes::END <= t {
        return Err(Refusal::NoSuchMinute);
    }
    Ok(source.holders_at(t))
}

fn holders(kind: Kind, s: &[u8], t: u32) -> HolderSet {
    match holders_at(kind, s, t) {
        Ok(users) => HolderSet { refusal: 0, users },
        Err(refusal) => HolderSet {
            refusal: refusal.into(),
            users: 0,
        },
    }
}

#[unsafe(no_mangle)]
pub extern "C" fn probe_rota_holders(s: &[u8], t: u32) -> HolderSet {
    holders(Kind::Rota, s, t)
}

#[unsafe(no_mangle)]
pub extern "C" fn probe_table_holders(s: &[u8], t: u32) -> HolderSet {
    holders(Kind::Table, s, t)
}

// What a call of the service gives, and the state after it.
#[repr(C)]
#[derive(Clone, Copy)]
pub struct Stepped {
    pub refusal: u32,
    pub yes: u32,
    pub value: u32,
    pub now: u32,
    pub open: u64,
}

fn step_out(told: Told, after: Service) -> Stepped {
    Stepped {
        refusal: told.refusal,
        yes: told.yes,
        value: told.value,
        now: after.now,
        open: after.open,
    }
}

// The four calls, on bytes of either kind.
fn advance(kind: Kind, s: &[u8], before: Service, m: u32) -> Stepped {
    let mut service = before;
    let told = machine::leave(service::advance(kind, s, before, m), &mut service).into();
    step_out(told, service)
}

fn open_session(kind: Kind, s: &[u8], before: Service, u: u32) -> Stepped {
    let mut service = before;
    let told = machine::leave(service::open(kind, s, before, u), &mut service).into();
    step_out(told, service)
}

fn close_session(kind: Kind, s: &[u8], before: Service, u: u32) -> Stepped {
    let mut service = before;
    let told = machine::leave(service::close(kind, s, before, u), &mut service).into();
    step_out(told, service)
}

fn ask(kind: Kind, s: &[u8], service: Service, u: u32, p: u32) -> Stepped {
    step_out(service::ask(kind, s, service, u, p).into(), service)
}

#[unsafe(no_mangle)]
pub extern "C" fn probe_rota_advance(s: &[u8], now: u32, open: u64, m: u32) -> Stepped {
    advance(Kind::Rota, s, Service { now, open }, m)
}

#[unsafe(no_mangle)]
pub extern "C" fn probe_rota_open(s: &[u8], now: u32, open: u64, u: u32) -> Stepped {
    open_session(Kind::Rota, s, Service { now, open }, u)
}

#[unsafe(no_mangle)]
pub extern "C" fn probe_rota_close(s: &[u8], now: u32, open: u64, u: u32) -> Stepped {
    close_session(Kind::Rota, s, Service { now, open }, u)
}

#[unsafe(no_mangle)]
pub extern "C" fn probe_rota_ask(s: &[u8], now: u32, open: u64, u: u32, p: u32) -> Stepped {
    ask(Kind::Rota, s, Service { now, open }, u, p)
}

#[unsafe(no_mangle)]
pub extern "C" fn probe_table_advance(s: &[u8], now: u32, open: u64, m: u32) -> Stepped {
    advance(Kind::Table, s, Service { now, open }, m)
}

#[unsafe(no_mangle)]
pub extern "C" fn probe_table_open(s: &[u8], now: u32, open: u64, u: u32) -> Stepped {
    open_session(Kind::Table, s, Service { now, open }, u)
}

#[unsafe(no_mangle)]
pub extern "C" fn probe_table_close(s: &[u8], now: u32, open: u64, u: u32) -> Stepped {
    close_session(Kind::Table, s, Service { now, open }, u)
}

#[unsafe(no_mangle)]
pub extern "C" fn probe_table_ask(s: &[u8], now: u32, open: u64, u: u32, p: u32) -> Stepped {
    ask(Kind::Table, s, Service { now, open }, u, p)
}
