// Each function that a host calls under the contract that the theorem of runs has for it: what a run asks of a call, the code does. adapter_c
// exports these same functions to C, under the same clauses.
#![tactic(auto)]

ghost use Rattle.std.specs.Prelude.{[]};
ghost use Rattle.host_runs.specs.CallContracts.{Met, saying};
ghost use Rattle.host_runs.specs.HostCalls.{HostCall, contract_of, CCall, contract};

pub fn setup(state: &mut [u8], block: &[u8], eds: &[u8], seed: u32) -> u64
    ensures { Met (contract (CCall.Setup block.now eds.now seed)) state.old state.new (saying result [] []) }
{
    adapter::app_setup::threshtide_setup(state, block, eds, seed)
}

pub fn set_input(state: &mut [u8], instance: u32, bytes: &[u8]) -> u64
    ensures { Met (contract_of (HostCall.SetInput instance bytes.now)) state.old state.new (saying result [] []) }
{
    adapter::app_calls::threshtide_set_input(state, instance, bytes)
}

pub fn output(state: &mut [u8], instance: u32, out: &mut [u8]) -> u64
    ensures { Met (contract_of (HostCall.Output instance out.old)) state.old state.new (saying result out.new []) }
{
    adapter::app_calls::threshtide_output(state, instance, out)
}

pub fn assembly(state: &[u8], kind: u8, instance: u32, out: &mut [u8]) -> u64
    ensures { Met (contract_of (HostCall.Assembly kind instance out.old)) state.now state.now (saying result out.new []) }
{
    adapter::app_calls::threshtide_assembly(state, kind, instance, out)
}

pub fn next_event(state: &mut [u8], out: &mut [u8]) -> u64
    ensures { Met (contract_of (HostCall.NextEvent out.old)) state.old state.new (saying result out.new []) }
{
    adapter::app_calls::threshtide_next_event(state, out)
}

pub fn connections(state: &[u8], out: &mut [u8]) -> u64
    ensures { Met (contract_of (HostCall.Connections out.old)) state.now state.now (saying result out.new []) }
{
    adapter::app_calls::threshtide_connections(state, out)
}

pub fn stats(state: &[u8], out: &mut [u8]) -> u64
    ensures { Met (contract_of (HostCall.Stats out.old)) state.now state.now (saying result out.new []) }
{
    adapter::app_calls::threshtide_stats(state, out)
}

pub fn open(
    state: &mut [u8],
    time: u64,
    service: u8,
    request: &[u8],
    peer: u32,
    local: u32,
    mask: u32,
    given: bool,
    address: u32,
    port: u16,
    ioport: u16,
    out: &mut [u8],
) -> u64
    ensures { Met (contract_of (HostCall.Open time service request.now peer local mask given address port ioport out.old)) state.old state.new (saying result out.new []) }
{
    adapter::open_calls::threshtide_open(
        state, time, service, request, peer, local, mask, given, address, port, ioport, out,
    )
}

// It is lent no state: whatever the host holds stays.
pub fn open_refusal(service: u8, request: &[u8], out: &mut [u8]) -> u64
    ensures { Met (contract_of (HostCall.OpenRefusal service request.now out.old)) [] [] (saying result out.new []) }
{
    adapter::open_calls::threshtide_open_refusal(service, request, out)
}

pub fn close(state: &mut [u8], request: &[u8], out: &mut [u8]) -> u64
    ensures { Met (contract_of (HostCall.Close request.now out.old)) state.old state.new (saying result out.new []) }
{
    adapter::conn_calls::threshtide_close(state, request, out)
}

pub fn receive(state: &mut [u8], time: u64, from: u32, frame: &[u8]) -> u64
    ensures { Met (contract_of (HostCall.Receive time from frame.now)) state.old state.new (saying result [] []) }
{
    adapter::io_calls::threshtide_receive(state, time, from, frame)
}

pub fn produce(state: &mut [u8], time: u64, out: &mut [u8]) -> u64
    ensures { Met (contract_of (HostCall.Produce time out.old)) state.old state.new (saying result out.new []) }
{
    adapter::io_calls::threshtide_produce(state, time, out)
}

pub fn expire(state: &mut [u8], time: u64) -> u64
    ensures { Met (contract_of (HostCall.Expire time)) state.old state.new (saying result [] []) }
{
    adapter::conn_calls::threshtide_expire(state, time)
}

pub fn next_deadline(state: &[u8], out: &mut [u8]) -> u64
    ensures { Met (contract_of (HostCall.NextDeadline out.old)) state.now state.now (saying result out.new []) }
{
    adapter::io_calls::threshtide_next_deadline(state, out)
}

pub fn message(
    state: &[u8],
    upload: &mut [u8],
    local: u32,
    mask: u32,
    message: &[u8],
    out: &mut [u8],
) -> u64
    ensures { Met (contract_of (HostCall.Message local mask message.now upload.old out.old)) state.now state.now (saying result out.new upload.new) }
{
    adapter::msg_calls::threshtide_message(state, upload, local, mask, message, out)
}

pub fn path(path: &[u8], out: &mut [u8]) -> u64
    ensures { Met (contract (CCall.Path path.now out.old)) [] [] (saying result out.new []) }
{
    adapter::msg_routes::threshtide_path(path, out)
}

pub fn request(message: &[u8], out: &mut [u8]) -> u64
    ensures { Met (contract (CCall.Request message.now out.old)) [] [] (saying result out.new []) }
{
    adapter::msg_routes::threshtide_request(message, out)
}
