// A recorded call as a call of the C function: which number of the record goes where.
use crate::recorded::Recorded;
use adapter::{app_calls, app_setup, conn_calls, io_calls, msg_calls, msg_routes, open_calls};

// What a host keeps between the calls: one state, and the upload position of each of four sessions.
#[derive(Drop)]
pub struct Host {
    state: [u8; 109056],
    uploads: [u8; 32],
}

impl Host {
    pub fn new() -> Host {
        Host {
            state: [0; 109056],
            uploads: [0; 32],
        }
    }

    fn open(&mut self, r: Recorded<'_>, out: &mut [u8]) -> u64 {
        let peer = r.number(12);
        let local = r.number(16);
        let mask = r.number(20);
        let address = r.number(24);
        open_calls::threshtide_open(
            &mut self.state,
            base_cells::u64_at(&r.head, 4),
            r.head[1],
            r.bytes,
            peer,
            local,
            mask,
            r.head[2] != 0,
            address,
            base_cells::u16_at(&r.head, 28),
            base_cells::u16_at(&r.head, 30),
            out,
        )
    }

    // Every call but those of a session.
    fn plain(&mut self, r: Recorded<'_>, out: &mut [u8]) -> u64 {
        let time = base_cells::u64_at(&r.head, 4);
        let n = r.number(12);
        let state = &mut self.state;
        match r.head[0] {
            2 => app_calls::threshtide_set_input(state, n, r.bytes),
            3 => app_calls::threshtide_output(state, n, out),
            4 => app_calls::threshtide_assembly(state, r.head[1], n, out),
            5 => self.open(r, out),
            6 => open_calls::threshtide_open_refusal(r.head[1], r.bytes, out),
            7 => conn_calls::threshtide_close(state, r.bytes, out),
            8 => io_calls::threshtide_receive(state, time, n, r.bytes),
            9 => io_calls::threshtide_produce(state, time, out),
            10 => conn_calls::threshtide_expire(state, time),
            11 => io_calls::threshtide_next_deadline(state, out),
            12 => app_calls::threshtide_next_event(state, out),
            13 => app_calls::threshtide_connections(state, out),
            14 => app_calls::threshtide_stats(state, out),
            16 => msg_routes::threshtide_path(r.bytes, out),
            _ => msg_routes::threshtide_request(r.bytes, out),
        }
    }

    // A setup ends every session, so an accepted one leaves no upload.
    fn setup(&mut self, r: Recorded<'_>) -> u64 {
        let answer = app_setup::threshtide_setup(&mut self.state, r.bytes, r.eds, r.number(12));
        if answer == 0 {
            self.uploads = [0; 32];
        }
        answer
    }

    // A message in its session, which has its own upload position; or a new session, which has none yet.
    fn in_session(&mut self, r: Recorded<'_>, out: &mut [u8]) -> u64 {
        let at = 8 * usize::from(r.head[1]);
        let Some(upload) = self.uploads.get_mut(at..at + 8) else {
            return 1;
        };
        if r.head[0] == 15 {
            let peer = r.number(12);
            let local = r.number(16);
            return msg_calls::threshtide_message(&self.state, upload, peer, local, r.bytes, out);
        }
        upload.fill(0);
        0
    }

    // Any recorded call.
    pub fn call(&mut self, r: Recorded<'_>, out: &mut [u8]) -> u64 {
        match r.head[0] {
            1 => self.setup(r),
            15 | 18 => self.in_session(r, out),
            _ => self.plain(r, out),
        }
    }
}
