// One event more in the list of the lent state: the record of 32 bytes that the host reads, of a connection or of an assembly.
#![tactic(auto)]

ghost use Rattle.std.specs.Prelude.{◌≡◌};
ghost use Rattle.state_rules.specs.Places.{connections_of};
ghost use Rattle.state_image.specs.Holds.{Ready, Becomes};
ghost use Rattle.state_image.specs.Kept.{Kept};
ghost use Rattle.state_events.specs.AssemblyChanges.{change_number};
ghost use Rattle.state_events.specs.Pushes.{told, assembly_told};

use rules::Fixed;

// What happened to an assembly: configuration data was stored, or an output changed.
#[derive(Clone, Copy)]
pub enum AssemblyChange {
    Configured,
    OutputChanged,
}

impl AssemblyChange {
    // The byte that tells it in a record.
    pub fn number(self) -> u8
        ensures { result ≡ change_number self }
    {
        match self {
            AssemblyChange::Configured => 4,
            AssemblyChange::OutputChanged => 5,
        }
    }
}

// A connection, from what its row says: what is an occasion's number, or any other byte. Where 1,024 events wait, the oldest goes.
pub fn tell(s: &mut [u8], what: u8, f: Fixed)
    requires { Ready s.old }
    ensures { Kept (connections_of s.old) s.old s.new × Becomes s.old s.new (told what f) }
{
    let mut row = [0u8; 32];
    state_records::put_record(&mut row, what, &s[0..state_layout::SETUP_SIZE], f);
    state_changes::push_event(s, &row);
}

// An assembly: what is a change's number, or any other byte; the length is that of configuration data.
pub fn tell_assembly(s: &mut [u8], what: u8, instance: u16, length: u16)
    requires { Ready s.old }
    ensures { Kept (connections_of s.old) s.old s.new × Becomes s.old s.new (assembly_told what instance length) }
{
    let mut row = [0u8; 32];
    base_cells::put_u8(&mut row, 0, what);
    base_cells::put_u16(&mut row, 4, instance);
    base_cells::put_u16(&mut row, 6, length);
    state_changes::push_event(s, &row);
}
