// The application's side: inputs in, outputs and events out, and what it may read.
ghost use Rattle.std.specs.Prelude.{◌≡◌};
ghost use Rattle.rules.specs.Host.{set_input_call, output_call, assembly_answer, next_event_call, connections_answer, stats_answer};
ghost use Rattle.state_rules.specs.Places.{state_size};
ghost use Rattle.state_image.specs.Lift.{lifted, lifted_out, lifted_read};

use app_answers::answers;

// How many bytes a host has to lend as the state.
pub fn threshtide_state_size() -> u64
    ensures { result ≡ state_size }
{
    109056
}

// Gives an input new bytes; what they do not reach becomes zero. No: 1, 6, 7.
pub fn threshtide_set_input(state: &mut [u8], instance: u32, bytes: &[u8]) -> u64
    ensures { (result, state.new) ≡ lifted (set_input_call instance bytes.now) state.old }
{
    if !state_image::test_state(state) {
        return 1;
    }
    answers::number(app_inputs::set_input(state, instance, bytes))
}

// Reads an output: the run byte, then its bytes; the next change gives an event again. No: 1, 6, 8.
pub fn threshtide_output(state: &mut [u8], instance: u32, out: &mut [u8]) -> u64
    ensures { (result, (state.new, out.new)) ≡ lifted_out (output_call instance) state.old out.old }
{
    if !state_image::test_state(state) {
        return 1;
    }
    answers::number(app_outputs::output(state, instance, out))
}

// Reads the bytes of an assembly of a kind: 1 input, 2 output, 3 configuration. No: 1, 6, 8.
pub fn threshtide_assembly(state: &[u8], kind: u8, instance: u32, out: &mut [u8]) -> u64
    ensures { (result, out.new) ≡ lifted_read (assembly_answer kind instance) state.now out.old }
{
    if !state_image::test_state(state) {
        return 1;
    }
    answers::number(app_outputs::assembly(state, kind, instance, out))
}

// Takes the oldest event: a record of 32 bytes. No: 1, 9, 8.
pub fn threshtide_next_event(state: &mut [u8], out: &mut [u8]) -> u64
    ensures { (result, (state.new, out.new)) ≡ lifted_out next_event_call state.old out.old }
{
    if !state_image::test_state(state) {
        return 1;
    }
    answers::number(app_queue::next_event(state, out))
}

// Packets produced, those that were late, the greatest lateness in microseconds: 8 bytes each. No: 1, 8.
pub fn threshtide_stats(state: &[u8], out: &mut [u8]) -> u64
    ensures { (result, out.new) ≡ lifted_read stats_answer state.now out.old }
{
    if !state_image::test_state(state) {
        return 1;
    }
    answers::number(app_counts::stats(state, out))
}

// The connections in table order, a record of 32 bytes each. No: 1, 8.
pub fn threshtide_connections(state: &[u8], out: &mut [u8]) -> u64
    ensures { (result, out.new) ≡ lifted_read connections_answer state.now out.old }
{
    if !state_image::test_state(state) {
        return 1;
    }
    answers::number(app_listing::connections(state, out))
}
