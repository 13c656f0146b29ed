// Frames in, packets out, and the time of the next call.
ghost use Rattle.std.specs.Prelude.{◌≡◌};
ghost use Rattle.rules.specs.Removal.{deadline_answer};
ghost use Rattle.rules.specs.Receiving.{receive_call};
ghost use Rattle.rules.specs.Producing.{produce_call};
ghost use Rattle.state_image.specs.Lift.{lifted, lifted_out, lifted_read};

use app_answers::answers;

// The time when a packet is due or a connection lives no longer, 8 bytes. No: 1, 9, 8.
pub fn threshtide_next_deadline(state: &[u8], out: &mut [u8]) -> u64
    ensures { (result, out.new) ≡ lifted_read deadline_answer state.now out.old }
{
    if !state_image::test_state(state) {
        return 1;
    }
    answers::number(io_deadlines::next_deadline(state, out))
}

// A frame from an address; one of no use is ignored. No: 1, 3.
pub fn threshtide_receive(state: &mut [u8], time: u64, from: u32, frame: &[u8]) -> u64
    ensures { (result, state.new) ≡ lifted (receive_call time from frame.now) state.old }
{
    if !state_image::test_state(state) {
        return 1;
    }
    if time > 9223372036854775807 {
        return 3;
    }
    io_receiving::receive(state, time, from, frame);
    0
}

// All packets that are due, one behind the other; their length stands in bits 8 and up. No: 1, 3, 8.
pub fn threshtide_produce(state: &mut [u8], time: u64, out: &mut [u8]) -> u64
    ensures { (result, (state.new, out.new)) ≡ lifted_out (produce_call time) state.old out.old }
{
    if !state_image::test_state(state) {
        return 1;
    }
    if time > 9223372036854775807 {
        return 3;
    }
    answers::number(io_producing::produce(state, time, out))
}
