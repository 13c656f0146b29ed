// Connections end: a close that was asked for, and expiry.
ghost use Rattle.std.specs.Prelude.{◌≡◌};
ghost use Rattle.rules.specs.Removal.{close_call, expire_call};
ghost use Rattle.state_image.specs.Lift.{lifted, lifted_out};

use app_answers::answers;

// Closes a connection. Yes: 10 reply bytes. No: 1, 4, 9, 8.
pub fn threshtide_close(state: &mut [u8], request: &[u8], out: &mut [u8]) -> u64
    ensures { (result, (state.new, out.new)) ≡ lifted_out (close_call request.now) state.old out.old }
{
    if !state_image::test_state(state) {
        return 1;
    }
    match wire_opens::decode_close(request) {
        None => 4,
        Some(t) => answers::number(conn_ending::close(state, t, out)),
    }
}

// Removes what was silent for longer than its timeout; how many went stands in bits 8 and up. No: 1, 3.
pub fn threshtide_expire(state: &mut [u8], time: u64) -> u64
    ensures { (result, state.new) ≡ lifted (expire_call time) state.old }
{
    if !state_image::test_state(state) {
        return 1;
    }
    if time > 9223372036854775807 {
        return 3;
    }
    (conn_ending::expire_all(state, time) as u64) * 256
}
