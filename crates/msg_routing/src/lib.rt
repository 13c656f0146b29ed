// What a host reads to route bytes by itself: the record of a path, 32 bytes, and of an explicit message, 20. No state is touched.
#![tactic(auto)]

ghost use Rattle.std.specs.Prelude.{◌≡◌, [], ◌∷◌, ◌+◌, ◌≤◌, length};
ghost use Rattle.base_cells.specs.Records.{put_fields, of_bool};
ghost use Rattle.rules.specs.Answers.{outcome_number};
ghost use Rattle.rules.specs.Routing.{path_answer, request_answer};
ghost use Rattle.msg_routing.specs.Answered.{answered};
ghost use Rattle.msg_routing.specs.Told.{path_told, request_told};

use rules::No;
use wire_rules::{ConnectionPath, Key, Request};

fn put_four(s: &mut [u8], at: usize, a: u32, b: u32, c: u32, d: u32)
    requires { at + 16 ≤ length s.old }
    ensures { s.new ≡ put_fields (4 ∷ 4 ∷ 4 ∷ 4 ∷ []) s.old at (a ∷ b ∷ c ∷ d ∷ []) }
{
    base_cells::put_u32(s, at, a);
    base_cells::put_u32(s, at + 4, b);
    base_cells::put_u32(s, at + 4 + 4, c);
    base_cells::put_u32(s, at + 4 + 4 + 4, d);
}

// ---- a path

// What the record has where the path has no key.
const NO_KEY: Key = Key {
    vendor: 0,
    device: 0,
    product: 0,
    major: 0,
    minor: 0,
};

fn put_marks(s: &mut [u8], barred: bool, haskey: bool, hasclass: bool, count: u8)
    requires { 4 ≤ length s.old }
    ensures { s.new ≡ put_fields (1 ∷ 1 ∷ 1 ∷ 1 ∷ []) s.old 0 (of_bool barred ∷ of_bool haskey ∷ of_bool hasclass ∷ count ∷ []) }
{
    base_cells::put_bool(s, 0, barred);
    base_cells::put_bool(s, 1, haskey);
    base_cells::put_bool(s, 2, hasclass);
    base_cells::put_u8(s, 3, count);
}

fn put_key(s: &mut [u8], key: Key)
    requires { 12 ≤ length s.old }
    ensures { s.new ≡ put_fields (2 ∷ 2 ∷ 2 ∷ 1 ∷ 1 ∷ []) s.old 4 (key.vendor ∷ key.device ∷ key.product ∷ key.major ∷ key.minor ∷ []) }
{
    base_cells::put_u16(s, 4, key.vendor);
    base_cells::put_u16(s, 6, key.device);
    base_cells::put_u16(s, 8, key.product);
    base_cells::put_u8(s, 10, key.major);
    base_cells::put_u8(s, 11, key.minor);
}

fn put_place(s: &mut [u8], start: u16, len: u16)
    requires { 32 ≤ length s.old }
    ensures { s.new ≡ put_fields (2 ∷ 2 ∷ []) s.old 28 (start ∷ len ∷ []) }
{
    base_cells::put_u16(s, 28, start);
    base_cells::put_u16(s, 30, len);
}

fn put_path(out: &mut [u8], p: ConnectionPath) -> Result<u16, No>
    requires { (p.count ≤ 4) × (p.datastart + p.datalen ≤ 510) }
    ensures { (outcome_number result, out.new) ≡ answered (path_told p) out.old }
{
    if out.len() < 32 {
        return Err(No::NoRoom);
    }
    put_marks(
        out,
        p.barred,
        p.key.is_some(),
        p.class.is_some(),
        p.count as u8,
    );
    put_key(out, p.key.unwrap_or(NO_KEY));
    put_four(out, 12, p.class.unwrap_or(0), p.first, p.second, p.third);
    put_place(out, p.datastart as u16, p.datalen as u16);
    Ok(32)
}

// What a path says: the length of its record. No: 4, 8.
pub fn tell_path(path: &[u8], out: &mut [u8]) -> Result<u16, No>
    ensures { (outcome_number result, out.new) ≡ answered (path_answer path.now) out.old }
{
    let p = wire_paths::parse_path(path).map_err(|_| No::NotParsed)?;
    put_path(out, p)
}

// ---- a request

fn put_head(s: &mut [u8], service: u8, named: bool, numbered: bool)
    requires { 4 ≤ length s.old }
    ensures { s.new ≡ put_fields (1 ∷ 1 ∷ 1 ∷ 1 ∷ []) s.old 0 (service ∷ of_bool named ∷ of_bool numbered ∷ 0 ∷ []) }
{
    base_cells::put_u8(s, 0, service);
    base_cells::put_bool(s, 1, named);
    base_cells::put_bool(s, 2, numbered);
    base_cells::put_u8(s, 3, 0);
}

fn put_request(out: &mut [u8], q: Request) -> Result<u16, No>
    requires { q.datastart ≤ 65536 }
    ensures { (outcome_number result, out.new) ≡ answered (request_told q) out.old }
{
    if out.len() < 20 {
        return Err(No::NoRoom);
    }
    let class = q.object.map_or(0, |o| o.class);
    let instance = q.object.map_or(0, |o| o.instance);
    put_head(out, q.service, q.object.is_some(), q.attribute.is_some());
    put_four(
        out,
        4,
        class,
        instance,
        q.attribute.unwrap_or(0),
        q.datastart as u32,
    );
    Ok(20)
}

// What an explicit message asks: the length of its record. No: 4, 8.
pub fn tell_request(message: &[u8], out: &mut [u8]) -> Result<u16, No>
    ensures { (outcome_number result, out.new) ≡ answered (request_answer message.now) out.old }
{
    let q = wire_requests::parse_request(message).map_err(|_| No::NotParsed)?;
    put_request(out, q)
}
