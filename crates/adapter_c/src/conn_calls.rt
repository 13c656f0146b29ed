// Connections end: a close that was asked for, and expiry.
ghost use Rattle.std.specs.Prelude.{◌≡◌};
ghost use Rattle.rules.specs.Removal.{close_call, expire_call};
ghost use Rattle.state_image.specs.Lift.{lifted, lifted_out};

// Closes a connection. Yes: 10 reply bytes. No: 1, 4, 9, 8.
#[unsafe(no_mangle)]
pub extern "C" fn threshtide_close(state: &mut [u8], request: &[u8], out: &mut [u8]) -> u64
    ensures { (result, (state.new, out.new)) ≡ lifted_out (close_call request.now) state.old out.old }
{
    adapter::conn_calls::threshtide_close(state, request, out)
}

// Removes what was silent for longer than its timeout; how many went stands in bits 8 and up. No: 1, 3.
#[unsafe(no_mangle)]
pub extern "C" fn threshtide_expire(state: &mut [u8], time: u64) -> u64
    ensures { (result, state.new) ≡ lifted (expire_call time) state.old }
{
    adapter::conn_calls::threshtide_expire(state, time)
}
