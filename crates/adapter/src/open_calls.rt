// Opens: a connection that is asked for, and the data of the reply to one that was refused.
ghost use Rattle.std.specs.Prelude.{◌≡◌};
ghost use Rattle.rules.specs.Opening.{open_call, refusal_answer};
ghost use Rattle.state_image.specs.Lift.{lifted_out};
ghost use Rattle.msg_routing.specs.Answered.{answered};
ghost use Rattle.adapter.specs.Origins.{origin_of};

use open_answering::asking;
use rules::{Origin, Socket};

// Opens a connection. Yes: 26 reply bytes; multicast in bits 8 to 15, port in 16 to 31, address in 32 to 63. No: 1, 3, 4, 5, 8.
pub fn threshtide_open(
    state: &mut [u8],
    time: u64,
    service: u8,
    request: &[u8],
    peer: u32,
    local: u32,
    mask: u32,
    given: bool,
    address: u32,
    port: u16,
    ioport: u16,
    out: &mut [u8],
) -> u64
    ensures { (result, (state.new, out.new)) ≡ lifted_out (open_call time service request.now (origin_of peer local mask given address port ioport)) state.old out.old }
{
    if !state_image::test_state(state) {
        return 1;
    }
    if time > 9223372036854775807 {
        return 3;
    }
    let g = Origin {
        peer,
        local,
        mask,
        socket: given.then_some(Socket { address, port }),
        ioport,
    };
    match open_refusing::request_of(service, request) {
        None => 4,
        Some(o) => asking::open_request(state, time, o, request, g, out),
    }
}

// The 10 bytes of data of a refused open's reply. No: 4, 8.
pub fn threshtide_open_refusal(service: u8, request: &[u8], out: &mut [u8]) -> u64
    ensures { (result, out.new) ≡ answered (refusal_answer service request.now) out.old }
{
    app_answers::answers::number(open_refusing::refusal(service, request, out))
}
