// The head of every reply: the service with bit 7 set, the general status, and the words behind it (rule 5.22).
#![tactic(auto)]

ghost use Rattle.std.specs.Prelude.{◌≡◌, ◌+◌, ◌*◌, ◌≤◌, length, map, min};
ghost use Rattle.base_cells.specs.Records.{put_fields};
ghost use Rattle.base_cells.specs.Writes.{written};
ghost use Rattle.wire_rules.specs.Replies.{head_widths, head_fields, extended, reply_head};

#[tactic(auto, using(crate::proofs::HeadLaws::set_7))]
fn put_head(s: &mut [u8], service: u8, general: u8, words: u8)
    requires { 4 ≤ length s.old }
    ensures { s.new ≡ put_fields head_widths s.old 0 (head_fields service general words) }
{
    base_cells::put_u8(s, 0, service | 0x80);
    base_cells::put_u8(s, 1, 0);
    base_cells::put_u8(s, 2, general);
    base_cells::put_u8(s, 3, words);
}

#[tactic(auto, using(crate::proofs::HeadLaws::both))]
fn put_words(s: &mut [u8], words: u8, first: u16, second: u16)
    requires { 4 + 2 * min words 2 ≤ length s.old }
    ensures { s.new ≡ put_fields (map (λ w. 2) (extended words first second)) s.old 4 (extended words first second) }
{
    match words {
        0 => {}
        1 => base_cells::put_u16(s, 4, first),
        _ => {
            base_cells::put_u16(s, 4, first);
            base_cells::put_u16(s, 6, second);
        }
    }
}

// The head of a CIP reply, with as many of the two words as asked for, and its size; `None` where there is no room: nothing was written.
#[tactic(auto, using(crate::proofs::HeadLaws::no_room, crate::proofs::HeadLaws::all_put))]
pub fn reply_head(
    out: &mut [u8],
    service: u8,
    general: u8,
    words: u8,
    first: u16,
    second: u16,
) -> Option<usize>
    ensures { (result, out.new) ≡ written out.old (reply_head service general words first second) }
{
    let count = words.min(2);
    let size = 4 + 2 * usize::from(count);
    if out.len() < size {
        return None;
    }
    put_head(out, service, general, count);
    put_words(out, words, first, second);
    Some(size)
}
